//! Nodes: keys with their offers.
ghost use Rattle.std.specs.Prelude.{◌≡◌, ◌↔◌, IfOk, IsTrue};
ghost use Rattle.fare_component.specs.Keys.{IsKey, asked};
ghost use Rattle.fare_component.specs.Offers.{AreOffers};

use crate::asks_same;
use fare_component::{OfferRows, offers, same_offers};
use fare_law::{Mem, OfferKey};
use std::alloc::Global;
use std::marker::Model;
use std::sync::Arc;

/// A key with its offers. Contracts see what the key asks for, which determines the offers.
#[derive(Drop)]
pub struct Node {
    pub key: OfferKey,
    pub offers: Arc<OfferRows>,
}

impl Model for Node {
    ghost use Rattle.fare_component.specs.Keys.{Asked, asked};
    ghost use Rattle.fare_component.specs.Offers.{AreOffers};

    ghost Value = { Asked };

    ghost view = { λ n. asked n.key };

    ghost invariant = { λ n. AreOffers n.key n.offers.value };
}

impl Node {
    /// The node of a key, with its offers built anew.
    pub fn build(alloc: Global, key: OfferKey) -> Result<Node, Mem>
        requires { IsKey key }
        ensures { IfOk result (λ node. node ≡ asked key) }
    {
        let offers = Arc::new(alloc, offers(alloc, &key)?)?;
        Ok(Node { key, offers })
    }

    /// The node of a key that stays, with its offers built anew.
    pub fn build_for(alloc: Global, key: &OfferKey) -> Result<Node, Mem>
        requires { IsKey key.now }
        ensures { IfOk result (λ node. node ≡ asked key.now) }
    {
        let key = copied(key)?;
        Node::build(alloc, key)
    }

    /// Whether it is a node of the key.
    pub fn is_for(&self, key: &OfferKey) -> bool
        ensures { IsTrue result ↔ (self.now ≡ asked key.now) }
    {
        asks_same(&self.key, key)
    }

    /// The offers of the key that it is a node of.
    pub fn offers_for(&self, key: &OfferKey) -> &Arc<OfferRows>
        requires { self.now ≡ asked key.now }
        ensures { AreOffers key.now result.now.value }
    {
        same_offers();
        &self.offers
    }

    /// A second node with the same sheet and offers.
    pub fn copy(&self) -> Result<Node, Mem>
        ensures { IfOk result (λ node. node ≡ self.now) }
    {
        let key = copied(&self.key)?;
        let offers = Arc::try_clone(&self.offers)?;
        same_offers();
        Ok(Node { key, offers })
    }
}

/// A second key with the same sheet.
fn copied(key: &OfferKey) -> Result<OfferKey, Mem>
    ensures { IfOk result (λ copy. asked copy ≡ asked key.now) }
{
    Ok(OfferKey {
        legs: key.legs.copied(),
        sheet: Arc::try_clone(&key.sheet)?,
    })
}
