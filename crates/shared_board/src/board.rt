//! The board of a search.
ghost use Rattle.std.specs.Prelude.{◌≡◌, ◌≤◌, None, IfOk};
ghost use Rattle.std.specs.Arc.{arc_value};

use crate::BoardPass;
use crate::slot_board::SlotBoard;
use fare_book::Book;
use fare_law::{Mem, Request};
use node_publish::Node;
use std::alloc::Global;
use std::marker::Model;
use std::sync::Arc;

/// The book, the request and the budget of one search, and slots for its nodes. Several threads may see it at once.
#[derive(Drop)]
pub struct Board {
    pub(crate) slots: SlotBoard<Node>,
    pub(crate) book: Arc<Book>,
    pub(crate) request: Request,
    pub(crate) budget: u32,
}

impl Model for Board {
    ghost use Rattle.std.specs.Arc.{arc_value};
    ghost use Rattle.shared_board.specs.Searched.{BoardView};

    ghost Value = { BoardView };

    ghost view = { λ b. record { slots = b.slots; book = arc_value b.book; request = b.request; budget = b.budget } };
}

impl Board {
    /// The board of a search, with a number by which its passes know it, and its first pass, which holds no node. The
    /// budget is 1 to 1,000,000, and there are 1 to 65,536 slots. The request is judged when it is searched for.
    pub fn open(
        alloc: Global,
        number: u64,
        book: Arc<Book>,
        request: Request,
        budget: u32,
        slots: u32,
    ) -> Result<(Board, BoardPass), Mem>
        requires budget { (1 ≤ budget) × (budget ≤ 1000000) }
        requires slots { (1 ≤ slots) × (slots ≤ 65536) }
        ensures number { IfOk result (λ r. r.0.slots.number ≡ number) }
        ensures slots { IfOk result (λ r. r.0.slots.board.slots ≡ slots) }
        ensures search { IfOk result (λ r. r.0 ≡ record { slots = r.0.slots; book = arc_value book; request = request; budget = budget }) }
        ensures pass { IfOk result (λ r. r.1 ≡ record { of = r.0.slots; held = None }) }
    {
        let (slots, pass) = SlotBoard::open(alloc, number, slots)?;
        let board = Board {
            slots,
            book,
            request,
            budget,
        };
        Ok((board, BoardPass::new(pass)))
    }
}
