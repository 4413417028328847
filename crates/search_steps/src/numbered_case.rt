//! A case with the tables of its positions, and its residuals by numbers.
ghost use Rattle.std.specs.Prelude.{◌≡◌, ◌<◌, ◌≤◌, IfErr, IfOk, OnOk, length, map};
ghost use Rattle.std.specs.List.Sorted.{IsPermutation};
ghost use Rattle.fare_law.specs.Limits.{IsRequest};
ghost use Rattle.fare_law.specs.Lists.{EachPair};
ghost use Rattle.graph_walk.specs.Steps.{AreLive, AreOutcomes, ExceedsIf, LeadToLive, TellsStates, outcomes_of, rows_of};
ghost use Rattle.graph_walk.specs.Walks.{AreLeast, AreReached, IsShort, Reached, states};
ghost use Rattle.std.specs.Map.{lookup};
ghost use Rattle.residual_keys.specs.Kept.{IsResidual};
ghost use Rattle.residual_keys.specs.ResidualOrder.{StateBefore};
ghost use Rattle.residual_table.specs.declared.key.ResidualKey.{ResidualKey as AnyKey};
ghost use Rattle.residual_table.specs.Keys.{Grows, IsLive, residual_at};
ghost use Rattle.search_steps.specs.Leads.{leads_of, level_of};
ghost use Rattle.search_steps.specs.LeastMoves.{AreLeastMoves, BoundBy, LeaveLive, least_as};

use crate::bounds::OfKeys;
use crate::keyed::outcomes_of_key;
use crate::keying::keyed_moves;
use crate::nearest::least_by;
use crate::numbered::StepLists;
use crate::row_order::put_rows_in_order;
use crate::tables::Tables;
use crate::{Bounds, Case, LeastMove, ResidualRows};
use fare_law::{List, Mem};
use graph_walk::{Outcome, WalkFault, walk};
use residual_keys::Residual;
use residual_table::{ResidualKey, ResidualParts, keys_found};
use std::alloc::Global;
use std::marker::Model;

/// What becomes of the lists of steps after a walk. Of one search the walk alone needs them, and they take much of its room;
/// the walks of a calendar's column share them.
#[derive(Clone, Copy)]
pub enum ListsAfter {
    Kept,
    LetGo,
}

/// A book and a request, with the tables and lists that were found so far. Contracts see the book, the request and the
/// numbers.
#[derive(Drop)]
pub struct NumberedCase<'a> {
    case: Case<'a>,
    tables: Tables,
    lists: StepLists,
    /// Lists of outcomes that were given back, each with its room.
    spare: Vec<Vec<Outcome<ResidualKey>>>,
}

impl<'a> Model for NumberedCase<'a> {
    ghost use Rattle.search_steps.specs.Numbers.{AreStepLists, Numbered};
    ghost use Rattle.search_steps.specs.Tables.{AreTables};

    ghost Value = { Numbered };

    ghost view = { λ t. record { book = t.case.book; request = t.case.request; numbers = t.lists.numbers } };

    ghost invariant = { λ t. AreTables t.case.book.now t.case.request.now t.tables × AreStepLists t.case.request.now t.tables.kept.items t.lists };
}

impl<'a> NumberedCase<'a> {
    /// The case without a table.
    pub fn new(alloc: Global, case: Case<'a>) -> NumberedCase<'a>
        ensures book { result.book ≡ case.entry.book }
        ensures request { result.request ≡ case.entry.request }
    {
        NumberedCase {
            case,
            tables: Tables::new(alloc),
            lists: StepLists::new(alloc),
            spare: Vec::new(alloc),
        }
    }

    /// The case without a table, over numbers that there are.
    pub fn over(alloc: Global, case: Case<'a>, numbers: ResidualParts) -> NumberedCase<'a>
        ensures book { result.book ≡ case.entry.book }
        ensures request { result.request ≡ case.entry.request }
        ensures numbers { result.numbers ≡ numbers }
    {
        NumberedCase {
            case,
            tables: Tables::new(alloc),
            lists: StepLists::over(alloc, numbers),
            spare: Vec::new(alloc),
        }
    }

    /// The numbers that were given so far.
    pub fn numbers(&self) -> &ResidualParts
        ensures { result.now ≡ self.now.numbers }
    {
        &self.lists.numbers
    }

    /// Lets go the tables and the lists, which take most of the room. They are found anew where they are asked for again.
    pub fn let_go(&mut self, alloc: Global)
        ensures { self.new ≡ self.old }
    {
        self.tables = Tables::new(alloc);
        self.lists.let_go(alloc);
    }

    /// The case.
    pub fn case(&self) -> Case<'a>
        ensures book { result.book ≡ self.now.book }
        ensures request { result.request ≡ self.now.request }
    {
        self.case
    }

    /// The key of a residual.
    pub fn key(&mut self, residual: &Residual) -> Result<ResidualKey, Mem>
        ensures book { self.new.book ≡ self.old.book }
        ensures request { self.new.request ≡ self.old.request }
        ensures grows { Grows self.old.numbers self.new.numbers }
        ensures live { IfOk result (IsLive self.new.numbers) }
        ensures stands { IfOk result (λ k. residual_at self.new.numbers k ≡ residual.now) }
    {
        self.lists.numbers.key(residual)
    }

    /// The residual of a key.
    pub fn residual(&self, key: &ResidualKey) -> Residual
        requires { IsLive self.now.numbers key.now }
        ensures state { result ≡ residual_at self.now.numbers key.now }
        ensures kept { IsResidual result }
    {
        let residual = self.lists.numbers.residual(key);
        residual.keeps();
        residual
    }

    /// Tells that keys are equal where they stand for one residual, and only there.
    pub fn keys_tell(&self)
        ensures { TellsStates (IsLive self.now.numbers) (residual_at self.now.numbers) ⟦<ResidualKey as PartialEq>⟧.eq }
    {
        self.lists.numbers.keys_tell();
    }

    /// The outcomes of a residual.
    pub fn outcomes(
        &mut self,
        alloc: Global,
        key: ResidualKey,
    ) -> Result<Vec<Outcome<ResidualKey>>, Mem>
        requires request { IsRequest self.old.request.now }
        requires live { IsLive self.old.numbers key }
        ensures book { self.new.book ≡ self.old.book }
        ensures request { self.new.request ≡ self.old.request }
        ensures grows { Grows self.old.numbers self.new.numbers }
        ensures outcomes { IfOk result (λ v. AreOutcomes (leads_of self.old.book.now self.old.request.now) (residual_at self.old.numbers key) (outcomes_of (residual_at self.new.numbers) v.items)) }
        ensures live { IfOk result (λ v. LeadToLive (IsLive self.new.numbers) v.items) }
    {
        let case = self.case;
        let room = self.spare.pop().unwrap_or(Vec::new(alloc));
        outcomes_of_key(alloc, &case, &mut self.tables, &mut self.lists, key, room)
    }

    /// Takes back a list that it gave, so that its room may serve for another one.
    pub fn take_back(&mut self, outcomes: Vec<Outcome<ResidualKey>>)
        ensures { self.new ≡ self.old }
    {
        let _ = self.spare.push(outcomes);
    }

    /// All residuals that are reached from that of a key, each once, with the least price of a run from it.
    pub fn reached(
        &mut self,
        alloc: Global,
        root: ResidualKey,
        budget: u32,
        lists: ListsAfter,
    ) -> Result<ResidualRows, WalkFault>
        requires request { IsRequest self.old.request.now }
        requires live { IsLive self.old.numbers root }
        requires short { IsShort (leads_of self.old.book.now self.old.request.now) level_of (residual_at self.old.numbers root) }
        ensures book { self.new.book ≡ self.old.book }
        ensures request { self.new.request ≡ self.old.request }
        ensures grows { Grows self.old.numbers self.new.numbers }
        ensures reached { IfOk result (λ rows. AreReached (leads_of self.old.book.now self.old.request.now) (residual_at self.old.numbers root) (states (rows_of (residual_at self.new.numbers) rows.entries))) }
        ensures least { IfOk result (λ rows. AreLeast (leads_of self.old.book.now self.old.request.now) (rows_of (residual_at self.new.numbers) rows.entries)) }
        ensures few { IfOk result (λ rows. length rows.entries ≤ budget) }
        ensures alive { IfOk result (λ rows. AreLive (IsLive self.new.numbers) rows.entries) }
        ensures large { IfErr result (ExceedsIf (Reached (leads_of self.old.book.now self.old.request.now) (residual_at self.old.numbers root)) budget) }
    {
        let rows = self.walked(alloc, root, budget);
        match lists {
            ListsAfter::Kept => {}
            ListsAfter::LetGo => self.let_go_lists(alloc),
        }
        rows
    }

    /// The same, with the lists that the walk needs.
    fn walked(
        &mut self,
        alloc: Global,
        root: ResidualKey,
        budget: u32,
    ) -> Result<ResidualRows, WalkFault>
        requires request { IsRequest self.old.request.now }
        requires live { IsLive self.old.numbers root }
        requires short { IsShort (leads_of self.old.book.now self.old.request.now) level_of (residual_at self.old.numbers root) }
        ensures book { self.new.book ≡ self.old.book }
        ensures request { self.new.request ≡ self.old.request }
        ensures grows { Grows self.old.numbers self.new.numbers }
        ensures reached { IfOk result (λ rows. AreReached (leads_of self.old.book.now self.old.request.now) (residual_at self.old.numbers root) (states (rows_of (residual_at self.new.numbers) rows.entries))) }
        ensures least { IfOk result (λ rows. AreLeast (leads_of self.old.book.now self.old.request.now) (rows_of (residual_at self.new.numbers) rows.entries)) }
        ensures few { IfOk result (λ rows. length rows.entries ≤ budget) }
        ensures alive { IfOk result (λ rows. AreLive (IsLive self.new.numbers) rows.entries) }
        ensures large { IfErr result (ExceedsIf (Reached (leads_of self.old.book.now self.old.request.now) (residual_at self.old.numbers root)) budget) }
    {
        self.keys_tell();
        let case = self.case();
        walk(alloc, &case, root, budget, self)
    }

    /// Lets go the lists.
    fn let_go_lists(&mut self, alloc: Global)
        ensures { self.new ≡ self.old }
    {
        self.lists.let_go(alloc);
    }

    /// Puts rows into the order of their residuals.
    pub fn put_in_order(&self, alloc: Global, rows: &mut ResidualRows) -> Result<(), Mem>
        requires { AreLive (IsLive self.now.numbers) rows.old.entries }
        ensures order { OnOk result (EachPair (λ r s. StateBefore (residual_at self.now.numbers r.0) (residual_at self.now.numbers s.0)) rows.new.entries) }
        ensures same { OnOk result (IsPermutation rows.old.entries rows.new.entries) }
        ensures found { OnOk result ((key : AnyKey) → lookup (⟦<ResidualKey as PartialEq>⟧.eq key) rows.new.entries ≡ lookup (⟦<ResidualKey as PartialEq>⟧.eq key) rows.old.entries) }
    {
        put_rows_in_order(alloc, &self.lists.numbers, rows)
    }

    /// The moves of a residual that count under bounds, the first `wanted` of them by total and code. Its
    /// slice is one of the request's.
    pub fn least_moves<B: Bounds>(
        &mut self,
        alloc: Global,
        residual: &Residual,
        bounds: &B,
        wanted: usize,
    ) -> Result<List<LeastMove<ResidualKey>>, Mem>
        requires request { IsRequest self.old.request.now }
        requires known { residual.now.at.slice < length self.old.request.now.slices }
        ensures same { self.new ≡ self.old }
        ensures least { IfOk result (λ ms. AreLeastMoves self.old.book.now self.old.request.now (BoundBy (IsLive self.old.numbers) (residual_at self.old.numbers) (B.bound bounds.now)) residual.now wanted (map (least_as (residual_at self.old.numbers)) ms)) }
        ensures live { IfOk result (LeaveLive (IsLive self.old.numbers)) }
    {
        let case = self.case;
        let keyed = OfKeys {
            bounds,
            numbers: &self.lists.numbers,
        };
        self.lists.numbers.keeps();
        keys_found();
        let found = least_by(alloc, &case, &mut self.tables, residual, &keyed, wanted)?;
        keyed_moves(alloc, &keyed, found.as_slice())
    }
}
