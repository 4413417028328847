//! Answers to one ask.
ghost use Rattle.std.specs.Prelude.{◌≡◌, ◌<◌, ◌≤◌, ◌-◌, length, slice_get, None, Some, IfOk, OnOk};
ghost use Rattle.search_desk.specs.Outcomes.{AnswersAsk};
ghost use Rattle.fare_law.specs.Requests.{judged, known_places};
ghost use Rattle.fare_versions.specs.Published.{Grows};
ghost use Rattle.fare_versions.specs.Seen.{seen_by};
ghost use Rattle.search_desk.specs.Desks.{Has};
ghost use Rattle.serve_desks.specs.Wants.{CountsWants};

use crate::Desk;
use fare_book::Book;
use fare_component::Plain;
use fare_law::{Gate, List, Mem};
use node_publish::NodeStore;
use search_core::{SearchFault, search};
use serve_desks::{Ask, Body, Reply};
use std::alloc::Global;

/// The ask of this number, counted from 1.
pub(crate) fn ask_of(asks: &List<Ask>, request: u32) -> &Ask
    requires { (0 < request) × (request ≤ length asks.now) }
    ensures { slice_get asks.now (request - 1) ≡ Some result.now }
{
    &asks.as_slice()[request as usize - 1]
}

/// How often memory was wanting, after this answer.
pub(crate) fn counted<T>(wants: u32, answer: &Result<T, Mem>) -> u32
    requires { wants ≡ 0 }
    ensures { CountsWants wants result answer.now }
{
    match answer {
        Ok(_) => wants,
        Err(_) => wants + 1,
    }
}

/// Looks once, and answers the ask from that version.
pub(crate) fn reply_by<G: Gate>(
    alloc: Global,
    desk: &mut Desk,
    store: &NodeStore,
    ask: &Ask,
    gate: &G,
) -> Result<Reply, Mem>
    requires cells { desk.old.pass.cells ≡ store.now }
    requires allowed { judged (known_places desk.old.sight.book) ask.now.request ≡ None }
    ensures cells { desk.new.pass.cells ≡ desk.old.pass.cells }
    ensures seen { Grows (seen_by desk.old.sight) (seen_by desk.new.sight) }
    ensures told { desk.new.sight.told ≡ desk.old.sight.told }
    ensures learnt { OnOk result (Has desk.old.sight.told desk.new.sight.book) }
    ensures number { IfOk result (λ r. r.number ≡ length desk.new.sight.book.entries) }
    ensures outcome { IfOk result (λ r. AnswersAsk ask.now desk.new.sight.book.timetable desk.new.sight.book.entries r.body) }
{
    match desk.search(alloc, store, &ask.request, ask.budget, gate) {
        Ok(answer) => Ok(Reply {
            number: answer.number,
            body: Body::Tickets(answer.tickets),
        }),
        Err(SearchFault::TooLarge) => Ok(Reply {
            number: desk.seen(),
            body: Body::TooLarge,
        }),
        Err(SearchFault::BadRequest(_)) => unreachable!(),
        Err(SearchFault::Mem) => Err(Mem),
    }
}

/// Answers the ask from this book, with nodes of its own.
pub(crate) fn reply_from(alloc: Global, book: &Book, ask: &Ask) -> Result<Reply, Mem>
    requires { judged (known_places book.now) ask.now.request ≡ None }
    ensures number { IfOk result (λ r. r.number ≡ length book.now.entries) }
    ensures outcome { IfOk result (λ r. AnswersAsk ask.now book.now.timetable book.now.entries r.body) }
{
    match search(alloc, book, &ask.request, ask.budget, &mut Plain) {
        Ok(answer) => Ok(Reply {
            number: answer.number,
            body: Body::Tickets(answer.tickets),
        }),
        Err(SearchFault::TooLarge) => Ok(Reply {
            number: book.number(),
            body: Body::TooLarge,
        }),
        Err(SearchFault::BadRequest(_)) => unreachable!(),
        Err(SearchFault::Mem) => Err(Mem),
    }
}
