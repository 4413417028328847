//! Passes of the board of a search.
ghost use Rattle.std.specs.Prelude.{◌≡◌, ◌<◌, Some, None, IfErr, IfOk, IsSome, IsTrue, OnOk, false};
ghost use Rattle.certificate.specs.Checks.{Checks};
ghost use Rattle.fare_law.specs.declared.requests.Why.{Why};
ghost use Rattle.fare_law.specs.Requests.{judged, known_places};
ghost use Rattle.search_core.specs.Answers.{HasCause, IsAnswer, Searchable};

use crate::Board;
use crate::slot_pass::SlotPass;
use crate::source::BoardSource;
use crate::walking::walk_all;
use core::mem::replace_with;
use fare_law::{Gate, Mem, NoGate};
use node_publish::Node;
use search_core::{Answer, SearchFault, request_ok, search};
use std::alloc::Global;
use std::marker::Model;

/// One who searches by way of a board. It may go to another thread. Contracts see its board and the slot whose node it
/// holds. Where a pass is dropped that holds a node, the others build that node for themselves from then on.
#[derive(Drop)]
pub struct BoardPass {
    slots: SlotPass<Node>,
    held: Option<HeldNode>,
}

/// A node that is out of its slot.
#[derive(Drop)]
struct HeldNode {
    slot: usize,
    node: Node,
}

impl Model for BoardPass {
    ghost use Rattle.std.specs.Prelude.{◌≡◌, ◌<◌, option_map, IfSome};
    ghost use Rattle.shared_board.specs.Holding.{PassView};

    ghost Value = { PassView };

    ghost view = { λ p. p.slots };

    ghost invariant = { λ p. (p.slots.held ≡ option_map (λ h. h.slot) p.held) × IfSome p.held (λ h. h.slot < p.slots.of.board.slots) };
}

impl BoardPass {
    pub(crate) fn new(slots: SlotPass<Node>) -> BoardPass
        requires { slots.held ≡ None }
        ensures { result ≡ slots }
    {
        BoardPass { slots, held: None }
    }

    /// A second pass of the board, which holds no node.
    pub fn split(&mut self, board: &Board) -> Result<BoardPass, Mem>
        requires { self.old.of ≡ board.now.slots }
        ensures same { self.new ≡ self.old }
        ensures second { IfOk result (λ p. p ≡ record { of = board.now.slots; held = None }) }
    {
        Ok(BoardPass::new(self.slots.split(&board.slots)))
    }

    /// Takes in another pass, which is used up. Neither holds a node.
    pub fn join(&mut self, board: &Board, other: BoardPass)
        requires { (self.old.of ≡ board.now.slots) × (other.of ≡ board.now.slots) × (self.old.held ≡ None) × (other.held ≡ None) }
        ensures { self.new ≡ self.old }
    {
        let BoardPass { slots, held: _ } = other;
        self.slots.join(&board.slots, slots);
    }

    /// The board's number, as the board has it.
    pub fn number(&mut self, board: &Board) -> u64
        requires { self.old.of ≡ board.now.slots }
        ensures same { self.new ≡ self.old }
        ensures number { result ≡ board.now.slots.number }
    {
        self.slots.number(&board.slots)
    }

    /// Takes the node of a slot out and holds it. False where nothing was found: another pass has the slot out, or it
    /// is empty.
    pub fn hold(&mut self, board: &Board, slot: u32) -> bool
        requires { (self.old.of ≡ board.now.slots) × (slot < board.now.slots.board.slots) × (self.old.held ≡ None) }
        ensures of { self.new.of ≡ self.old.of }
        ensures held { IsTrue result → self.new.held ≡ Some slot }
        ensures none { result ≡ false → self.new ≡ self.old }
    {
        let slot = slot as usize;
        match self.slots.take(&board.slots, slot) {
            Some(Some(node)) => {
                self.held = Some(HeldNode { slot, node });
                true
            }
            Some(None) => {
                self.slots.put(&board.slots, slot, None);
                false
            }
            None => false,
        }
    }

    /// Puts the node that it holds back into its slot.
    pub fn release(&mut self, board: &Board)
        requires { (self.old.of ≡ board.now.slots) × IsSome self.old.held }
        ensures of { self.new.of ≡ self.old.of }
        ensures held { self.new.held ≡ None }
    {
        match self.held.take() {
            Some(HeldNode { slot, node }) => self.slots.put(&board.slots, slot, Some(node)),
            None => unreachable!(),
        }
    }

    /// Walks the residuals that the board's search reaches, up to the budget, so that the nodes of the search lie on the
    /// board as far as it has room. It gives how many nodes it built itself, which is 0 where the request is none.
    pub fn work(&mut self, alloc: Global, board: &Board) -> Result<u32, Mem>
        requires { (self.old.of ≡ board.now.slots) × (self.old.held ≡ None) }
        ensures same { self.new ≡ self.old }
        ensures refused { (why : Why) → judged (known_places board.now.book) board.now.request ≡ Some why → IfOk result (λ built. built ≡ 0) }
    {
        replace_with(
            self,
            (),
            |pass: BoardPass, _: ()| -> (BoardPass, Result<u32, Mem>)
                requires { (pass.of ≡ board.now.slots) × (pass.held ≡ None) }
            { pass.worked(alloc, board) },
        )
    }

    /// The pass after its work, and how much that was.
    #[tactic(auto, using(crate::proofs::OneBoard::same_pass))]
    fn worked(self, alloc: Global, board: &Board) -> (BoardPass, Result<u32, Mem>)
        requires { (self.of ≡ board.now.slots) × (self.held ≡ None) }
        ensures same { result.0 ≡ self }
        ensures refused { (why : Why) → judged (known_places board.now.book) board.now.request ≡ Some why → IfOk result.1 (λ built. built ≡ 0) }
    {
        if request_ok(&board.book, &board.request).is_err() {
            return (self, Ok(0));
        }
        let mut source = self.source(board, &NoGate);
        let walked = walk_all(alloc, board, &mut source);
        let BoardSource {
            board: _,
            pass,
            gate: _,
            built,
        } = source;
        match walked {
            Ok(()) => (BoardPass::new(pass), Ok(built)),
            Err(fault) => (BoardPass::new(pass), Err(fault)),
        }
    }

    /// The answer of the board's search, or why there is none: what `search` gives of the board's book, request and
    /// budget, whatever other passes do. It calls `gate.pass(0)` before each node that it builds.
    pub fn answer<G: Gate>(
        &mut self,
        alloc: Global,
        board: &Board,
        gate: &G,
    ) -> Result<Answer, SearchFault>
        requires { (self.old.of ≡ board.now.slots) × (self.old.held ≡ None) }
        ensures same { self.new ≡ self.old }
        ensures answer { IfOk result (IsAnswer board.now.book board.now.request) }
        ensures checks { IfOk result (λ a. Checks a.certificate board.now.book board.now.request) }
        ensures fits { OnOk result (Searchable board.now.book board.now.request board.now.budget) }
        ensures cause { IfErr result (HasCause board.now.book board.now.request board.now.budget) }
    {
        replace_with(
            self,
            (),
            |pass: BoardPass, _: ()| -> (BoardPass, Result<Answer, SearchFault>)
                requires { (pass.of ≡ board.now.slots) × (pass.held ≡ None) }
            { pass.searched(alloc, board, gate) },
        )
    }

    /// The pass after its search, and the answer.
    #[tactic(auto, using(crate::proofs::OneBoard::same_pass))]
    fn searched<G: Gate>(
        self,
        alloc: Global,
        board: &Board,
        gate: &G,
    ) -> (BoardPass, Result<Answer, SearchFault>)
        requires { (self.of ≡ board.now.slots) × (self.held ≡ None) }
        ensures same { result.0 ≡ self }
        ensures answer { IfOk result.1 (IsAnswer board.now.book board.now.request) }
        ensures checks { IfOk result.1 (λ a. Checks a.certificate board.now.book board.now.request) }
        ensures fits { OnOk result.1 (Searchable board.now.book board.now.request board.now.budget) }
        ensures cause { IfErr result.1 (HasCause board.now.book board.now.request board.now.budget) }
    {
        let mut source = self.source(board, gate);
        let answer = search(
            alloc,
            &board.book,
            &board.request,
            board.budget,
            &mut source,
        );
        let BoardSource {
            board: _,
            pass,
            gate: _,
            built: _,
        } = source;
        (BoardPass::new(pass), answer)
    }

    /// The offers of the board, by this pass.
    fn source<'a, G: Gate>(self, board: &'a Board, gate: &'a G) -> BoardSource<'a, G>
        requires { (self.of ≡ board.now.slots) × (self.held ≡ None) }
        ensures { result.pass ≡ self }
    {
        let BoardPass { slots, held: _ } = self;
        BoardSource {
            board: &board.slots,
            pass: slots,
            gate,
            built: 0,
        }
    }
}
