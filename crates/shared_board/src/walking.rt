//! The walk over all residuals of a board's search.
ghost use Rattle.std.specs.Prelude.{◌≡◌};
ghost use Rattle.fare_law.specs.Limits.{IsRequest};

use crate::Board;
use fare_component::OfferSource;
use fare_law::Mem;
use pricing_graph::{Graph, GraphFault};
use search_steps::SearchSteps;
use std::alloc::Global;

/// Walks the residuals that are reached and, where they are within the budget, takes each node that the search needs.
pub fn walk_all<O: OfferSource>(alloc: Global, board: &Board, offers: &mut O) -> Result<(), Mem>
    requires { IsRequest board.now.request }
    ensures { O.base offers.new ≡ O.base offers.old }
{
    let mut steps = SearchSteps::new(alloc, &board.book, &board.request);
    match Graph::build(alloc, board.budget, &mut steps, offers) {
        Ok(_) | Err(GraphFault::TooLarge { .. }) => Ok(()),
        Err(GraphFault::Mem) => Err(Mem),
    }
}
