//! What may cross to other threads, and be seen there by several at once.
use fare_book::Book;
use fare_versions::{Clerk, Receipt, Watch};
use node_publish::{NodeStore, StorePass};
use std::sync::Arc;

/// Takes a type whose values several threads may see at once.
fn is_shared<T: Sync>() {}

/// Takes a type whose values may be handed to another thread.
fn is_moved<T: Send>() {}

/// Books are shared, clerks, watches and receipts are handed over, and stores are shared, with passes that are handed over.
#[test]
fn crosses_to_other_threads() {
    is_shared::<Arc<Book>>();
    is_moved::<Arc<Book>>();
    is_moved::<Clerk>();
    is_moved::<Watch>();
    is_moved::<Receipt>();
    is_shared::<NodeStore>();
    is_moved::<NodeStore>();
    is_moved::<StorePass>();
}
