//! Offers by way of a store of nodes.
ghost use Rattle.std.specs.Prelude.{◌≡◌, ◌⊎◌, IfOk};
ghost use Rattle.fare_component.specs.Offers.{HasNoOffers};
ghost use Rattle.node_publish.specs.Homes.{Published};

use crate::{Kept, Node, NodeStore, StorePass};
use fare_component::{OfferRows, OfferSource};
use fare_law::{Gate, Mem, OfferKey};
use std::alloc::Global;
use std::sync::Arc;

/// Offers that are found in a store, or built and kept there. What is settled is published, as far as
/// the pass knows, or has no offers. Before it builds a node it calls the gate, with the desk's number.
#[derive(Drop)]
pub struct StoreSource<'a, G: Gate> {
    pub store: &'a NodeStore,
    pub pass: StorePass,
    pub gate: &'a G,
    pub desk: u32,
    /// A pass is used with its own store.
    pub ghost own: { pass.cells ≡ store.now },
}

impl<'a, G: Gate> OfferSource for StoreSource<'a, G> {
    ghost use Rattle.std.proofs.Common.{inl};

    ghost settled = { λ s a. HasNoOffers a ⊎ Published s.pass a };

    ghost base = { λ s. s.store.now };

    ghost nothing = { λ s a none. inl none };

    fn settles_all(&self) -> bool {
        false
    }

    fn settles_home(&mut self, home: usize) -> bool {
        self.store.is_full(&mut self.pass, home)
    }

    fn take(&mut self, alloc: Global, key: OfferKey) -> Result<Arc<OfferRows>, Mem> {
        let store = self.store;
        if let Some(node) = store.find(&mut self.pass, &key) {
            return shared(node.offers_for(&key));
        }
        self.gate.pass(self.desk);
        let node = Node::build_for(alloc, &key)?;
        match store.keep(alloc, &mut self.pass, &node)? {
            Kept::Here(kept) => shared(kept.offers_for(&key)),
            Kept::NoRoom => shared(node.offers_for(&key)),
        }
    }
}

/// A second pointer to the offers.
fn shared(offers: &Arc<OfferRows>) -> Result<Arc<OfferRows>, Mem>
    ensures { IfOk result (λ o. o.value ≡ offers.now.value) }
{
    Ok(Arc::try_clone(offers)?)
}
