//! The tellers of a serving run.
ghost use Rattle.std.specs.Prelude.{◌≡◌, ◌≤◌, All, IfOk, length};
ghost use Rattle.search_desk.specs.Tellers.{AreAllowed};
ghost use Rattle.fare_law.specs.Lists.{Each};
ghost use Rattle.fare_versions.specs.Seen.{HasSeen};
ghost use Rattle.serve_desks.specs.Terms.{IsOf, terms_of};

use fare_law::{Gate, List, Mem};
use fare_versions::{Clerk, Watch};
use node_publish::NodeStore;
use search_desk::{Desk, DeskTeller};
use serve_desks::Ask;
use std::alloc::Global;

/// A teller for each watch of the clerk, all over one store. The gate tells them by their numbers, from 1.
pub(crate) fn tellers_of<'a, G: Gate>(
    alloc: Global,
    clerk: &Clerk,
    watches: List<Watch>,
    store: &'a NodeStore,
    asks: &'a List<Ask>,
    gate: &'a G,
) -> Result<List<DeskTeller<'a, G>>, Mem>
    requires watches { All (HasSeen clerk.now) watches }
    requires few { length watches ≤ 8 }
    requires asks { AreAllowed clerk.now.book asks.now }
    ensures tellers { IfOk result (Each (IsOf (λ t. t.sight.house) (λ t. record { asks = t.asks; timetable = t.sight.book.timetable }) (λ t. t.wants) clerk.now.house (terms_of asks.now clerk.now.book))) }
    ensures count { IfOk result (λ l. length l ≡ length watches) }
{
    let _clerk = clerk;
    let mut left = watches.into_vec();
    let mut tellers = List::new(alloc);
    while let Some(watch) = left.pop() {
        let number = tellers.len() as u32 + 1;
        let teller = teller_of(alloc, watch, number, store, asks, gate)?;
        tellers.push(teller)?;
    }
    Ok(tellers)
}

/// The teller of a watch.
fn teller_of<'a, G: Gate>(
    alloc: Global,
    watch: Watch,
    number: u32,
    store: &'a NodeStore,
    asks: &'a List<Ask>,
    gate: &'a G,
) -> Result<DeskTeller<'a, G>, Mem>
    requires { AreAllowed watch.book asks.now }
    ensures { IfOk result (λ t. t ≡ record { sight = watch; asks = asks.now; wants = 0 }) }
{
    let desk = Desk::new(watch, store.pass(alloc)?, number);
    Ok(DeskTeller::new(desk, store, asks, gate))
}
