//! The home slots of a key, and the nodes in them. A key has the same home slots among so many slots as it has home
//! cells in a store of so many cells.
ghost use Rattle.std.specs.Prelude.{◌≡◌, ◌<◌, None, IfOk, IfSome};
ghost use Rattle.fare_component.specs.Keys.{asked};
ghost use Rattle.fare_component.specs.Offers.{AreOffers};
ghost use Rattle.node_publish.specs.Homes.{home, homes};

use crate::slot_board::SlotBoard;
use crate::slot_pass::SlotPass;
use fare_component::OfferRows;
use fare_law::{Mem, OfferKey};
use node_publish::{Node, home_of};
use std::sync::Arc;

/// How many home slots a key has.
pub fn homes(board: &SlotBoard<Node>) -> usize
    ensures { result ≡ homes board.now.board.slots }
{
    board.count().min(8)
}

/// The j-th home slot of the key.
pub fn home(board: &SlotBoard<Node>, key: &OfferKey, j: usize) -> usize
    requires { j < 8 }
    ensures value { result ≡ home board.now.board.slots (asked key.now) j }
    ensures within { result < board.now.board.slots }
{
    (home_of(key) + j) % board.count()
}

/// The offers of the key, where the slot has its node. The node is put back where it was.
pub fn offers_in(
    pass: &mut SlotPass<Node>,
    board: &SlotBoard<Node>,
    slot: usize,
    key: &OfferKey,
) -> Result<Option<Arc<OfferRows>>, Mem>
    requires pass { (pass.old.of ≡ board.now) × (pass.old.held ≡ None) }
    requires slot { slot < board.now.board.slots }
    ensures same { pass.new ≡ pass.old }
    ensures offers { IfOk result (λ o. IfSome o (λ rows. AreOffers key.now rows.value)) }
{
    let Some(content) = pass.take(board, slot) else {
        return Ok(None);
    };
    let found = offers_of(&content, key);
    pass.put(board, slot, content);
    found
}

/// The offers of the key, where this is its node.
fn offers_of(content: &Option<Node>, key: &OfferKey) -> Result<Option<Arc<OfferRows>>, Mem>
    ensures { IfOk result (λ o. IfSome o (λ rows. AreOffers key.now rows.value)) }
{
    match content {
        None => Ok(None),
        Some(node) => {
            if node.is_for(key) {
                Ok(Some(shared(node.offers_for(key))?))
            } else {
                Ok(None)
            }
        }
    }
}

/// Puts the node into the slot, where that is empty and at home. The node comes back where it isn't.
pub fn put_in(
    pass: &mut SlotPass<Node>,
    board: &SlotBoard<Node>,
    slot: usize,
    node: Node,
) -> Option<Node>
    requires pass { (pass.old.of ≡ board.now) × (pass.old.held ≡ None) }
    requires slot { slot < board.now.board.slots }
    ensures same { pass.new ≡ pass.old }
    ensures node { IfSome result (λ n. n ≡ node) }
{
    match pass.take(board, slot) {
        None => Some(node),
        Some(None) => {
            pass.put(board, slot, Some(node));
            None
        }
        Some(other) => {
            pass.put(board, slot, other);
            Some(node)
        }
    }
}

/// A second pointer to the offers.
pub fn shared(offers: &Arc<OfferRows>) -> Result<Arc<OfferRows>, Mem>
    ensures { IfOk result (λ o. o.value ≡ offers.now.value) }
{
    Ok(Arc::try_clone(offers)?)
}
