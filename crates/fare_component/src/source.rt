//! Where a search has its offers from.
ghost use Rattle.std.specs.Prelude.{◌≡◌, ◌<◌, ◌^◌, ⊤, ℕ, List, [], IfOk, IsTrue, OnOk};
ghost use Rattle.fare_component.specs.Homes.{home_of};
ghost use Rattle.fare_component.specs.Keys.{Asked, IsKey, asked};
ghost use Rattle.fare_component.specs.Offers.{AreOffers, HasNoOffers};

use crate::{OfferRows, offers};
use fare_law::{Mem, OfferKey};
use std::alloc::Global;
use std::sync::Arc;

/// What gives the offers of a key. What has no offers is settled with every source.
pub trait OfferSource {
    // Whether what a key asks for is settled with this source.
    ghost settled: { Self → Asked → Type 0 };

    // What the source stands on, which no call changes.
    ghost base: { Self → List ℕ } = { λ _. [] };

    /// Whether all that a key may ask for is settled with this source. It is true only then, so a caller
    /// who needs no offers of a key need not take them to have it settled.
    fn settles_all(&self) -> bool
        ensures { IsTrue result → (a : Asked) → settled self.now a };

    /// Whether all is settled that keys of this home may ask for. It is true only then, so a caller who needs no offers of such
    /// a key need not make it.
    fn settles_home(&mut self, home: usize) -> bool
        requires { home < 2 ^ 50 }
        ensures base { base self.new ≡ base self.old }
        ensures stays { (a : Asked) → settled self.old a → settled self.new a }
        ensures those { IsTrue result → (a : Asked) → home_of a ≡ home → settled self.new a };

    /// The offers of a key. What is settled stays so, and after `Ok` what the key asks for is settled.
    fn take(&mut self, alloc: Global, key: OfferKey) -> Result<Arc<OfferRows>, Mem>
        requires { IsKey key }
        ensures offers { IfOk result (λ rows. AreOffers key rows.value) }
        ensures base { base self.new ≡ base self.old }
        ensures stays { (a : Asked) → settled self.old a → settled self.new a }
        ensures asked { OnOk result (settled self.new (asked key)) };

    // What has no offers is settled: there is nothing of it to keep.
    ghost nothing: { (s : Self) (a : Asked) → HasNoOffers a → settled s a };
}

/// Builds offers anew. With it every key is settled.
#[derive(Clone, Copy)]
pub struct Plain;

impl OfferSource for Plain {
    ghost settled = { λ _ _. ⊤ };

    ghost nothing = { λ _ _ _. tt };

    fn settles_all(&self) -> bool
        ensures { IsTrue result }
    {
        true
    }

    fn settles_home(&mut self, _home: usize) -> bool {
        true
    }

    fn take(&mut self, alloc: Global, key: OfferKey) -> Result<Arc<OfferRows>, Mem> {
        Ok(Arc::new(alloc, offers(alloc, &key)?)?)
    }
}
