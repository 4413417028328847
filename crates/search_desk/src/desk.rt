//! Desks.
ghost use Rattle.std.specs.Prelude.{◌≡◌, length, max, IfErr, IfOk, OnOk};
ghost use Rattle.certificate.specs.Checks.{Checks};
ghost use Rattle.fare_law.specs.Lists.{IsPrefix};
ghost use Rattle.fare_versions.specs.Published.{Grows};
ghost use Rattle.fare_versions.specs.Seen.{SeeOneHistory, seen_by};
ghost use Rattle.search_core.specs.Answers.{HasCause, IsAnswer, Searchable};
ghost use Rattle.search_desk.specs.Desks.{AllPublished, Has, StaysSettled, UnlessMem};

use crate::settled::{Settled, is_settled, settled_by};
use core::mem::replace_with;
use fare_component::Plain;
use fare_law::{Gate, Mem, Request};
use fare_versions::{Receipt, Watch};
use node_publish::{NodeStore, StorePass, StoreSource};
use search_core::{Answer, SearchFault, search};
use std::alloc::Global;
use std::marker::Model;

/// A watch and a pass, which search together. It may go to another thread, and may be dropped at any time. Contracts
/// see what the watch saw and was told of, and what the pass knows.
#[derive(Drop)]
pub struct Desk {
    watch: Watch,
    pass: StorePass,
    /// By which gates tell it from others.
    desk: u32,
    /// What it searched last, where all nodes of it were published.
    settled: Option<Settled>,
}

impl Model for Desk {
    ghost use Rattle.search_desk.specs.Desks.{DeskView};
    ghost use Rattle.search_desk.specs.Remembered.{Remembers};

    ghost Value = { DeskView };

    ghost view = { λ d. record { sight = d.watch; pass = d.pass } };

    ghost invariant = { λ d. Remembers d.watch d.pass d.settled };
}

impl Desk {
    /// The desk of this number.
    pub fn new(watch: Watch, pass: StorePass, desk: u32) -> Desk
        ensures { result ≡ record { sight = watch; pass = pass } }
    {
        Desk {
            watch,
            pass,
            desk,
            settled: None,
        }
    }

    /// From now on it searches no version that is older than the receipt.
    pub fn learn(&mut self, receipt: &Receipt)
        requires { receipt.now.house ≡ self.old.sight.house }
        ensures pass { self.new.pass ≡ self.old.pass }
        ensures seen { seen_by self.new.sight ≡ seen_by self.old.sight }
        ensures told { IsPrefix self.old.sight.told self.new.sight.told }
        ensures learnt { IsPrefix receipt.now.entries self.new.sight.told }
    {
        self.watch.learn(receipt);
    }

    /// Looks once, and gives the number of the version that it sees: one with all that it had seen and was told of.
    /// After `Mem` it may have seen more than before, never less.
    pub fn look(&mut self) -> Result<u32, Mem>
        ensures pass { self.new.pass ≡ self.old.pass }
        ensures seen { Grows (seen_by self.old.sight) (seen_by self.new.sight) }
        ensures told { self.new.sight.told ≡ self.old.sight.told }
        ensures number { IfOk result (λ n. n ≡ length self.new.sight.book.entries) }
        ensures learnt { OnOk result (IsPrefix self.old.sight.told self.new.sight.book.entries) }
    {
        Ok(self.watch.look()?.number())
    }

    /// The number of the version that it last saw or was told of, whichever is greater.
    pub fn seen(&self) -> u32
        ensures { result ≡ max (length self.now.sight.book.entries) (length self.now.sight.told) }
    {
        self.watch.seen()
    }

    /// Tells that two desks of one clerk see one history: of the versions that they saw last the shorter begins the longer,
    /// and two of one number are equal.
    pub fn tell_one_history(&self, other: &Desk)
        requires { self.now.sight.house ≡ other.now.sight.house }
        ensures { SeeOneHistory self.now.sight.book other.now.sight.book }
    {
        self.watch.tell_one_history(&other.watch);
    }

    /// Looks once, and searches the version that it sees: one of its house's history, with all that it had seen and
    /// was told of. The answer is that of `search_core::search` on that version. It waits for nobody. Afterwards each
    /// node that the search needs is published, where the store has room; before it builds a node it calls the gate.
    ///
    /// After `BadRequest` and `TooLarge` too it has seen the version that was judged or searched. After `Mem` it may
    /// have seen more than before, never less. Where it searched the same version for the same request last, the
    /// nodes are published already, and none is asked for.
    pub fn search<G: Gate>(
        &mut self,
        alloc: Global,
        store: &NodeStore,
        request: &Request,
        budget: u32,
        gate: &G,
    ) -> Result<Answer, SearchFault>
        requires { self.old.pass.cells ≡ store.now }
        ensures seen { Grows (seen_by self.old.sight) (seen_by self.new.sight) }
        ensures told { self.new.sight.told ≡ self.old.sight.told }
        ensures learnt { OnOk result (Has self.old.sight.told self.new.sight.book) }
        ensures looked { IfErr result (λ e. UnlessMem e (Has self.old.sight.told self.new.sight.book)) }
        ensures answer { IfOk result (IsAnswer self.new.sight.book request.now) }
        ensures checks { IfOk result (λ a. Checks a.certificate self.new.sight.book request.now) }
        ensures fits { OnOk result (Searchable self.new.sight.book request.now budget) }
        ensures cause { IfErr result (HasCause self.new.sight.book request.now budget) }
        ensures published { OnOk result (AllPublished self.new.pass self.new.sight.book request.now) }
        ensures stays { StaysSettled self.old.pass self.new.pass }
        ensures cells { self.new.pass.cells ≡ self.old.pass.cells }
    {
        replace_with(
            self,
            (),
            |desk: Desk, _: ()| -> (Desk, Result<Answer, SearchFault>)
                requires { desk.pass.cells ≡ store.now }
            { desk.searched(alloc, store, request, budget, gate) },
        )
    }

    /// The desk after it searched, and the answer.
    fn searched<G: Gate>(
        self,
        alloc: Global,
        store: &NodeStore,
        request: &Request,
        budget: u32,
        gate: &G,
    ) -> (Desk, Result<Answer, SearchFault>)
        requires { self.pass.cells ≡ store.now }
        ensures seen { Grows (seen_by self.sight) (seen_by result.0.sight) }
        ensures told { result.0.sight.told ≡ self.sight.told }
        ensures learnt { OnOk result.1 (Has self.sight.told result.0.sight.book) }
        ensures looked { IfErr result.1 (λ e. UnlessMem e (Has self.sight.told result.0.sight.book)) }
        ensures answer { IfOk result.1 (IsAnswer result.0.sight.book request.now) }
        ensures checks { IfOk result.1 (λ a. Checks a.certificate result.0.sight.book request.now) }
        ensures fits { OnOk result.1 (Searchable result.0.sight.book request.now budget) }
        ensures cause { IfErr result.1 (HasCause result.0.sight.book request.now budget) }
        ensures published { OnOk result.1 (AllPublished result.0.pass result.0.sight.book request.now) }
        ensures stays { StaysSettled self.pass result.0.pass }
        ensures cells { result.0.pass.cells ≡ self.pass.cells }
    {
        let Desk {
            mut watch,
            pass,
            desk,
            settled,
        } = self;
        let Ok(book) = watch.look() else {
            let desk = Desk {
                watch,
                pass,
                desk,
                settled,
            };
            return (desk, Err(SearchFault::Mem));
        };
        if is_settled(&settled, book.number(), request) {
            let answer = search(alloc, &book, request, budget, &mut Plain);
            let desk = Desk {
                watch,
                pass,
                desk,
                settled,
            };
            return (desk, answer);
        }
        let mut source = StoreSource {
            store,
            pass,
            gate,
            desk,
        };
        let answer = search(alloc, &book, request, budget, &mut source);
        let settled = settled_by(&answer, book.number(), request);
        let StoreSource {
            store: _,
            pass,
            gate: _,
            desk,
        } = source;
        let desk = Desk {
            watch,
            pass,
            desk,
            settled,
        };
        (desk, answer)
    }
}
