//! The world.
ghost use Rattle.std.specs.Prelude.{◌≡◌, ◌++◌, ◌∷◌, ◌<◌, ℕ, length, Some, None, slice_index_or, slice_set, IfErr, IfOk, OnErr, OnOk};
ghost use Rattle.std.specs.Arc.{arc_value};
ghost use Rattle.fare_component.specs.Keys.{IsKey, asked};
ghost use Rattle.fare_law.specs.FilingLimits.{IsFiling};
ghost use Rattle.run_core.specs.Causes.{IsRefusedAnswer, IsRefusedFiling, IsStranger, IsUnseen};
ghost use Rattle.run_core.specs.Worlds.{AnswersFrom, Fetches, Files, KeepsOffers, Looks, Sees, opened};

use crate::making::{has_node, next_version, node_of, recorded};
use crate::{Recorded, StepFault};
use fare_book::Book;
use fare_law::{Filing, Mem, OfferKey, Request, Shared};
use node_publish::Node;
use std::alloc::Global;
use std::marker::Model;
use std::sync::Arc;

/// The last version of a book, what each desk looked at since its last answer, the nodes that are kept, and the answers
/// so far. Contracts see these as lists; of a node what its key asks for.
#[derive(Drop)]
pub struct World {
    book: Shared<Book>,
    desks: Vec<Option<Shared<Book>>>,
    kept: Vec<Node>,
    answers: Vec<Recorded>,
}

impl Model for World {
    ghost use Rattle.run_core.specs.Worlds.{WorldView};

    ghost Value = { WorldView };

    ghost view = { λ w. record { book = w.book; desks = w.desks.items; kept = w.kept.items; answers = w.answers.items } };
}

impl World {
    /// A world of so many desks, before any event.
    pub fn new(alloc: Global, book: Book, desks: u32) -> Result<World, Mem>
        ensures { IfOk result (λ w. w ≡ opened book desks) }
    {
        let mut sights = Vec::new(alloc);
        for _ in 0..desks {
            sights.push(None)?;
        }
        Ok(World {
            book: Shared::new(alloc, book)?,
            desks: sights,
            kept: Vec::new(alloc),
            answers: Vec::new(alloc),
        })
    }

    /// The answers, in order.
    pub fn answers(&self) -> &[Recorded]
        ensures { result.now ≡ self.now.answers }
    {
        self.answers.as_slice()
    }

    #[tactic(auto, using(crate::proofs::Transitions::filed_by))]
    pub(crate) fn file(&mut self, alloc: Global, filing: &Arc<Filing>) -> Result<(), StepFault>
        requires { IsFiling (arc_value filing.now) }
        ensures ok { OnOk result (Files self.old (arc_value filing.now) self.new) }
        ensures same { OnErr result (self.new ≡ self.old) }
        ensures cause { IfErr result (IsRefusedFiling self.old.book (arc_value filing.now)) }
    {
        self.book = next_version(alloc, self.last(), filing)?;
        Ok(())
    }

    /// The last version.
    fn last(&self) -> &Book
        ensures { result.now ≡ self.now.book }
    {
        &self.book
    }

    pub(crate) fn look(&mut self, desk: u32) -> Result<(), StepFault>
        ensures ok { OnOk result (Looks self.old desk self.new) }
        ensures same { OnErr result (self.new ≡ self.old) }
        ensures cause { IfErr result (IsStranger self.old desk) }
    {
        let place = desk as usize;
        if place >= self.desks.len() {
            return Err(StepFault::NoDesk);
        }
        self.desks[place] = Some(self.book.share()?);
        Ok(())
    }

    /// The version that the desk looked at.
    fn sight(&self, desk: u32) -> Result<&Book, StepFault>
        ensures ok { IfOk result (λ book. Sees self.now desk book.now) }
        ensures cause { IfErr result (IsUnseen self.now desk) }
    {
        let place = desk as usize;
        if place >= self.desks.len() {
            return Err(StepFault::NoDesk);
        }
        match &self.desks[place] {
            Some(book) => Ok(book),
            None => Err(StepFault::NotNow),
        }
    }

    #[tactic(auto, using(crate::proofs::Transitions::fetched))]
    pub(crate) fn fetch(&self, desk: u32) -> Result<(), StepFault>
        ensures ok { OnOk result (Fetches self.now desk self.now) }
        ensures cause { IfErr result (IsUnseen self.now desk) }
    {
        self.sight(desk)?;
        Ok(())
    }

    #[tactic(auto, using(crate::proofs::Transitions::kept_before, crate::proofs::Transitions::kept_anew))]
    pub(crate) fn keep(&mut self, alloc: Global, desk: u32, key: &OfferKey) -> Result<(), StepFault>
        requires { IsKey key.now }
        ensures ok { OnOk result (KeepsOffers self.old desk (asked key.now) self.new) }
        ensures same { OnErr result (self.new ≡ self.old) }
        ensures cause { IfErr result (IsUnseen self.old desk) }
    {
        self.sight(desk)?;
        if !has_node(self.kept.as_slice(), key) {
            self.kept.push(node_of(alloc, key)?)?;
        }
        Ok(())
    }

    #[tactic(auto, using(crate::proofs::Transitions::answered_by, crate::proofs::Refusals::by_sight, crate::proofs::Refusals::by_search))]
    pub(crate) fn answer(
        &mut self,
        alloc: Global,
        desk: u32,
        request: &Request,
        budget: u32,
    ) -> Result<(), StepFault>
        ensures ok { OnOk result (AnswersFrom self.old desk request.now budget self.new) }
        ensures same { OnErr result (self.new ≡ self.old) }
        ensures cause { IfErr result (IsRefusedAnswer self.old desk request.now) }
    {
        let book = self.sight(desk)?;
        let recorded = recorded(alloc, book, desk, request, budget)?;
        self.answers.push(recorded)?;
        self.desks[desk as usize] = None;
        Ok(())
    }
}
