//! The teller.
ghost use Rattle.std.specs.Prelude.{◌≡◌};
ghost use Rattle.search_desk.specs.Tellers.{AreAllowed};

use crate::Desk;
use crate::answering::{ask_of, counted, reply_by, reply_from};
use fare_book::Book;
use fare_law::{Gate, List, Mem};
use fare_versions::Receipt;
use node_publish::NodeStore;
use serve_desks::{Ask, Reply, Teller};
use std::alloc::Global;
use std::marker::Model;
use std::sync::Arc;

/// A desk that answers asks, by a store of nodes that it shares with others. Contracts see what the desk saw and was
/// told of, the asks, and at how many questions it wanted memory.
#[derive(Drop)]
pub struct DeskTeller<'a, G: Gate> {
    desk: Desk,
    store: &'a NodeStore,
    asks: &'a List<Ask>,
    gate: &'a G,
    /// At how many questions it wanted memory.
    wants: u32,
}

impl<'a, G: Gate> Model for DeskTeller<'a, G> {
    ghost use Rattle.std.specs.Prelude.{◌≡◌};
    ghost use Rattle.search_desk.specs.Tellers.{AreAllowed, TellerView};

    ghost Value = { TellerView };

    ghost view = { λ t. record { sight = t.desk.sight; asks = t.asks.now; wants = t.wants } };

    ghost invariant = { λ t. (t.desk.pass.cells ≡ t.store.now) × AreAllowed t.desk.sight.book t.asks.now };
}

impl<'a, G: Gate> DeskTeller<'a, G> {
    /// The teller of a desk, of the store whose pass the desk has, and of asks that are right over its timetable.
    pub fn new(
        desk: Desk,
        store: &'a NodeStore,
        asks: &'a List<Ask>,
        gate: &'a G,
    ) -> DeskTeller<'a, G>
        requires own { desk.pass.cells ≡ store.now }
        requires allowed { AreAllowed desk.sight.book asks.now }
        ensures { result ≡ record { sight = desk.sight; asks = asks.now; wants = 0 } }
    {
        DeskTeller {
            desk,
            store,
            asks,
            gate,
            wants: 0,
        }
    }
}

impl<'a, G: Gate> Teller for DeskTeller<'a, G> {
    ghost use Rattle.search_desk.specs.Outcomes.{AnswersAsk};

    ghost house = { λ t. t.sight.house };

    ghost seen = { λ t. t.sight.book.entries };

    ghost told = { λ t. t.sight.told };

    ghost terms = { λ t. record { asks = t.asks; timetable = t.sight.book.timetable } };

    ghost wants = { λ t. t.wants };

    ghost right = { AnswersAsk };

    fn answer(&mut self, alloc: Global, request: u32) -> Result<Reply, Mem> {
        let ask = ask_of(self.asks, request);
        let reply = reply_by(alloc, &mut self.desk, self.store, ask, self.gate);
        self.wants = counted(self.wants, &reply);
        reply
    }

    fn answer_from(&mut self, alloc: Global, book: &Arc<Book>, request: u32) -> Result<Reply, Mem> {
        let ask = ask_of(self.asks, request);
        let reply = reply_from(alloc, book, ask);
        self.wants = counted(self.wants, &reply);
        reply
    }

    fn learn(&mut self, receipt: &Receipt) {
        self.desk.learn(receipt);
    }

    fn settle(&mut self, _alloc: Global, receipt: &Receipt) -> Result<u32, Mem> {
        self.desk.learn(receipt);
        let number = self.desk.look();
        self.wants = counted(self.wants, &number);
        number
    }
}
