//! The text of what came of a search.
ghost use Rattle.std.specs.Prelude.{◌≡◌, codes, IfOk};
ghost use Rattle.serving.specs.Replaying.{HasText};

use answer_text::answer_text;
use fare_book::Book;
use fare_law::{List, Mem};
use serve_desks::Body;
use std::alloc::Global;

/// The text of what came of a search of this version: of tickets, which are lawful ones at their prices, the text of
/// their answer.
pub(crate) fn body_text(alloc: Global, book: &Book, body: &Body) -> Result<List<u8>, Mem>
    ensures { IfOk result (HasText book.now body.now) }
{
    match body {
        Body::Tickets(tickets) => {
            let text = answer_text(alloc, book, tickets.as_slice())?;
            Ok(text)
        }
        Body::TooLarge => {
            let text = too_large_text(alloc)?;
            Ok(text)
        }
    }
}

fn too_large_text(alloc: Global) -> Result<List<u8>, Mem>
    ensures { IfOk result (λ text. text ≡ codes "too large\n") }
{
    Ok(List::from_vec(b"too large\n".to_vec(alloc)?))
}
