//! What comes of a filing, what is recorded of an answer, and what is kept.
ghost use Rattle.std.specs.Prelude.{◌≡◌, ◌↔◌, None, Any, IfErr, IfOk, IsTrue, OnOk};
ghost use Rattle.std.specs.Arc.{arc_value};
ghost use Rattle.fare_component.specs.Keys.{IsKey, asked};
ghost use Rattle.fare_law.specs.FilingLimits.{IsFiling};
ghost use Rattle.fare_law.specs.Requests.{judged, known_places};
ghost use Rattle.fare_versions.specs.Filings.{IsFaultless, book_with};
ghost use Rattle.run_core.specs.Causes.{IsRefusedFiling, IsRefusedSearch};
ghost use Rattle.run_core.specs.Records.{Records};

use crate::{Outcome, Recorded, StepFault};
use fare_book::Book;
use fare_component::Plain;
use fare_law::{Filing, Mem, OfferKey, Request, Shared};
use node_publish::Node;
use search_core::{SearchFault, search};
use std::alloc::Global;
use std::sync::Arc;

/// The version with one filing more.
pub fn next_version(
    alloc: Global,
    book: &Book,
    filing: &Arc<Filing>,
) -> Result<Shared<Book>, StepFault>
    requires { IsFiling (arc_value filing.now) }
    ensures next { IfOk result (λ next. next ≡ book_with book.now (arc_value filing.now)) }
    ensures right { OnOk result (IsFaultless book.now (arc_value filing.now)) }
    ensures cause { IfErr result (IsRefusedFiling book.now (arc_value filing.now)) }
{
    let filing = Arc::try_clone(filing)?;
    let next = book.with(alloc, filing)?;
    Ok(Shared::new(alloc, next)?)
}

/// The record of a desk's answer from a version.
pub fn recorded(
    alloc: Global,
    book: &Book,
    desk: u32,
    request: &Request,
    budget: u32,
) -> Result<Recorded, StepFault>
    ensures ok { IfOk result (Records book.now desk request.now budget) }
    ensures right { OnOk result (judged (known_places book.now) request.now ≡ None) }
    ensures cause { IfErr result (IsRefusedSearch book.now request.now) }
{
    let outcome = match search(alloc, book, request, budget, &mut Plain) {
        Ok(answer) => Outcome::Tickets(answer.tickets),
        Err(SearchFault::TooLarge) => Outcome::TooLarge,
        Err(SearchFault::BadRequest(why)) => return Err(StepFault::BadSearch(why)),
        Err(SearchFault::Mem) => return Err(StepFault::Mem),
    };
    Ok(Recorded {
        desk,
        request: request.copied(),
        version: book.number(),
        outcome,
    })
}

/// The node of a key.
pub fn node_of(alloc: Global, key: &OfferKey) -> Result<Node, Mem>
    requires { IsKey key.now }
    ensures { IfOk result (λ node. node ≡ asked key.now) }
{
    let key = OfferKey {
        legs: key.legs.copied(),
        sheet: Arc::try_clone(&key.sheet)?,
    };
    Node::build(alloc, key)
}

/// Whether one of the nodes is that of the key.
pub fn has_node(nodes: &[Node], key: &OfferKey) -> bool
    ensures { IsTrue result ↔ Any (λ a. a ≡ asked key.now) nodes.now }
{
    nodes.iter().any(|node| is_of(node, key))
}

/// Whether the node is that of the key.
fn is_of(node: &Node, key: &OfferKey) -> bool
    ensures { IsTrue result ↔ (node.now ≡ asked key.now) }
{
    node.is_for(key)
}
