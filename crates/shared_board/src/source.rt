//! Offers by way of a board.
ghost use Rattle.std.specs.Prelude.{◌≡◌, ⊤, None};

use crate::homes::{home, homes, offers_in, put_in, shared};
use crate::slot_board::SlotBoard;
use crate::slot_pass::SlotPass;
use fare_component::{OfferRows, OfferSource};
use fare_law::{Gate, Mem, OfferKey};
use node_publish::Node;
use std::alloc::Global;
use std::sync::Arc;

/// Offers that are found on a board, or built and put there. Before it builds a node it calls the gate.
#[derive(Drop)]
pub struct BoardSource<'a, G: Gate> {
    pub board: &'a SlotBoard<Node>,
    pub pass: SlotPass<Node>,
    pub gate: &'a G,
    /// How many nodes it built.
    pub built: u32,
    pub ghost own: { (pass.of ≡ board.now) × (pass.held ≡ None) },
}

impl<'a, G: Gate> OfferSource for BoardSource<'a, G> {
    ghost use Rattle.shared_board.specs.Naming.{numbers_of};

    ghost settled = { λ _ _. ⊤ };

    ghost base = { λ s. numbers_of s.pass.of };

    ghost nothing = { λ _ _ _. tt };

    fn settles_all(&self) -> bool {
        false
    }

    /// Each key is to be taken, so that its node is there for the passes beside this one.
    fn settles_home(&mut self, _home: usize) -> bool {
        false
    }

    fn take(&mut self, alloc: Global, key: OfferKey) -> Result<Arc<OfferRows>, Mem> {
        let board = self.board;
        for j in 0..homes(board) {
            let slot = home(board, &key, j);
            if let Some(rows) = offers_in(&mut self.pass, board, slot, &key)? {
                return Ok(rows);
            }
        }
        self.gate.pass(0);
        let node = Node::build_for(alloc, &key)?;
        self.built = self.built.saturating_add(1);
        let rows = shared(node.offers_for(&key))?;
        let mut left = Some(node);
        for j in 0..homes(board) {
            let slot = home(board, &key, j);
            left = match left {
                None => None,
                Some(node) => put_in(&mut self.pass, board, slot, node),
            };
        }
        Ok(rows)
    }
}
