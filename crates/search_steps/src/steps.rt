//! The steps of a search.
ghost use Rattle.std.specs.Prelude.{◌≡◌, ◌≤◌, length, map, IfErr, IfOk, OnOk};
ghost use Rattle.std.specs.List.Sorted.{IsPermutation};
ghost use Rattle.fare_law.specs.Limits.{IsRequest};
ghost use Rattle.fare_law.specs.Lists.{EachPair};
ghost use Rattle.graph_walk.specs.Steps.{AreLive, AreOutcomes, ExceedsIf, KeepsStates, LeadToLive, TellsStates, outcomes_of, rows_of};
ghost use Rattle.graph_walk.specs.Walks.{AreLeast, AreReached, IsShort, Reached, states};
ghost use Rattle.std.specs.Map.{lookup};
ghost use Rattle.residual_keys.specs.ResidualOrder.{StateBefore};
ghost use Rattle.residual_table.specs.declared.key.ResidualKey.{ResidualKey as AnyKey};
ghost use Rattle.search_steps.specs.Cases.{IsSameCase};
ghost use Rattle.search_steps.specs.Keys.{live, state};
ghost use Rattle.search_steps.specs.Leads.{leads_of, level_of};
ghost use Rattle.search_steps.specs.LeastMoves.{AreLeastMoves, BoundBy, LeaveLive, least_as};

use crate::numbered_case::{ListsAfter, NumberedCase};
use crate::{Bounds, Case, LeastMove, ResidualRows};
use fare_book::Book;
use fare_law::{List, Mem, Request};
use graph_walk::{Outcome, WalkFault};
use residual_keys::Residual;
use residual_table::{ResidualKey, ResidualParts};
use std::alloc::Global;

/// The steps of one search: its book and request. It names residuals by keys. A key that it gave stands for its residual
/// for as long as it lives.
#[derive(Drop)]
pub struct SearchSteps<'a> {
    pub(crate) case: NumberedCase<'a>,
}

impl<'a> SearchSteps<'a> {
    /// The steps of a request on a book.
    pub fn new(alloc: Global, book: &'a Book, request: &'a Request) -> SearchSteps<'a>
        ensures book { result.case.book.now ≡ book.now }
        ensures request { result.case.request.now ≡ request.now }
    {
        SearchSteps {
            case: NumberedCase::new(alloc, Case { book, request }),
        }
    }

    /// The same, where residuals have numbers already.
    pub fn over(
        alloc: Global,
        book: &'a Book,
        request: &'a Request,
        numbers: ResidualParts,
    ) -> SearchSteps<'a>
        ensures book { result.case.book.now ≡ book.now }
        ensures request { result.case.request.now ≡ request.now }
        ensures numbers { result.case.numbers ≡ numbers }
    {
        SearchSteps {
            case: NumberedCase::over(alloc, Case { book, request }, numbers),
        }
    }

    /// The numbers that keys are made of.
    pub fn numbers(&self) -> &ResidualParts
        ensures { result.now ≡ self.now.case.numbers }
    {
        self.case.numbers()
    }

    /// Lets go what outcomes and moves are found by, which takes most of the room. It is found anew where they are asked
    /// for again, and keys stay as they are.
    pub fn let_go(&mut self, alloc: Global)
        ensures same { self.new.case ≡ self.old.case }
    {
        self.case.let_go(alloc);
    }

    /// The book and the request.
    pub fn case(&self) -> Case<'a>
        ensures book { result.book.now ≡ self.now.case.book.now }
        ensures request { result.request.now ≡ self.now.case.request.now }
    {
        self.case.case()
    }

    /// The key of a residual.
    pub fn key_of(&mut self, residual: Residual) -> Result<ResidualKey, Mem>
        ensures live { IfOk result (live self.new) }
        ensures state { IfOk result (λ key. state self.new key ≡ residual) }
        ensures keeps { KeepsStates (live self.old) (live self.new) (state self.old) (state self.new) }
        ensures case { IsSameCase self.old self.new }
    {
        self.case.key(&residual)
    }

    /// The residual of a key.
    pub fn residual(&self, key: ResidualKey) -> Residual
        requires { live self.now key }
        ensures { result ≡ state self.now key }
    {
        self.case.residual(&key)
    }

    /// Tells that keys are equal where they stand for one residual, and only there.
    pub fn keys_tell(&self)
        ensures { TellsStates (live self.now) (state self.now) ⟦<ResidualKey as PartialEq>⟧.eq }
    {
        self.case.keys_tell();
    }

    /// What the moves of a residual leave, at their prices: each outcome is a move, and for each move
    /// one leaves the same at no higher price.
    pub fn outcomes(
        &mut self,
        alloc: Global,
        key: ResidualKey,
    ) -> Result<Vec<Outcome<ResidualKey>>, Mem>
        requires request { IsRequest self.old.case.request.now }
        requires live { live self.old key }
        ensures outcomes { IfOk result (λ v. AreOutcomes (leads_of self.old.case.book.now self.old.case.request.now) (state self.old key) (outcomes_of (state self.new) v.items)) }
        ensures live { IfOk result (λ v. LeadToLive (live self.new) v.items) }
        ensures keeps { KeepsStates (live self.old) (live self.new) (state self.old) (state self.new) }
        ensures case { IsSameCase self.old self.new }
    {
        self.case.outcomes(alloc, key)
    }

    /// Takes back a list that `outcomes` gave, so that its room may serve for another one.
    pub fn take_back(&mut self, outcomes: Vec<Outcome<ResidualKey>>)
        ensures same { self.new.case ≡ self.old.case }
    {
        self.case.take_back(outcomes);
    }

    /// All residuals that are reached from the root's, each once, with the least price of a run from it.
    pub fn reached(
        &mut self,
        alloc: Global,
        root: ResidualKey,
        budget: u32,
        lists: ListsAfter,
    ) -> Result<ResidualRows, WalkFault>
        requires request { IsRequest self.old.case.request.now }
        requires live { live self.old root }
        requires short { IsShort (leads_of self.old.case.book.now self.old.case.request.now) level_of (state self.old root) }
        ensures reached { IfOk result (λ rows. AreReached (leads_of self.old.case.book.now self.old.case.request.now) (state self.old root) (states (rows_of (state self.new) rows.entries))) }
        ensures least { IfOk result (λ rows. AreLeast (leads_of self.old.case.book.now self.old.case.request.now) (rows_of (state self.new) rows.entries)) }
        ensures few { IfOk result (λ rows. length rows.entries ≤ budget) }
        ensures alive { IfOk result (λ rows. AreLive (live self.new) rows.entries) }
        ensures large { IfErr result (ExceedsIf (Reached (leads_of self.old.case.book.now self.old.case.request.now) (state self.old root)) budget) }
        ensures keeps { KeepsStates (live self.old) (live self.new) (state self.old) (state self.new) }
        ensures case { IsSameCase self.old self.new }
    {
        self.case.reached(alloc, root, budget, lists)
    }

    /// Puts rows into the order of their residuals.
    pub fn put_in_order(&self, alloc: Global, rows: &mut ResidualRows) -> Result<(), Mem>
        requires { AreLive (live self.now) rows.old.entries }
        ensures order { OnOk result (EachPair (λ r s. StateBefore (state self.now r.0) (state self.now s.0)) rows.new.entries) }
        ensures same { OnOk result (IsPermutation rows.old.entries rows.new.entries) }
        ensures found { OnOk result ((key : AnyKey) → lookup (⟦<ResidualKey as PartialEq>⟧.eq key) rows.new.entries ≡ lookup (⟦<ResidualKey as PartialEq>⟧.eq key) rows.old.entries) }
    {
        self.case.put_in_order(alloc, rows)
    }

    /// The moves of a residual that count under bounds, the first `wanted` of them by total and code:
    /// the price of a move and the bound of what it leaves.
    pub fn least_moves<B: Bounds>(
        &mut self,
        alloc: Global,
        key: ResidualKey,
        bounds: &B,
        wanted: usize,
    ) -> Result<List<LeastMove<ResidualKey>>, Mem>
        requires request { IsRequest self.old.case.request.now }
        requires live { live self.old key }
        ensures least { IfOk result (λ ms. AreLeastMoves self.old.case.book.now self.old.case.request.now (BoundBy (live self.old) (state self.old) (B.bound bounds.now)) (state self.old key) wanted (map (least_as (state self.new)) ms)) }
        ensures live { IfOk result (LeaveLive (live self.new)) }
        ensures keeps { KeepsStates (live self.old) (live self.new) (state self.old) (state self.new) }
        ensures same { self.new.case ≡ self.old.case }
        ensures case { IsSameCase self.old self.new }
    {
        let residual = self.case.residual(&key);
        if usize::from(residual.at.slice) >= self.case().request.slices.len() {
            return Ok(List::new(alloc));
        }
        self.case.least_moves(alloc, &residual, bounds, wanted)
    }
}
