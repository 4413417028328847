//! What C holds by a pointer.
use fare_book::Book;
use fare_law::List;
use std::sync::Arc;

/// A book, which may be shared by several threads, each with a handle of its own; or a text.
#[derive(Drop)]
pub enum Kept {
    Book(Arc<Book>),
    Text(List<u8>),
}

/// What C holds may go to another thread, and be read by several: said by the bounds.
pub fn is_shared(kept: &Kept) {
    crosses(kept);
}

fn crosses<T: Send + Sync>(_kept: &T) {}
