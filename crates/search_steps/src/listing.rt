//! Lists of steps: what the components of a table are where they stand alone, where they open a unit, and where they go on
//! in an open unit or close it.
ghost use Rattle.std.specs.Prelude.{◌≡◌, ◌≤◌, ◌<◌, ◌↔◌, [], IfOk, IfSome, IsSome, IsTrue, None, OnOk, Some, false, length, take, true};
ghost use Rattle.fare_law.specs.Days.{IsCalendarDay};
ghost use Rattle.fare_law.specs.Lists.{Each};
ghost use Rattle.open_unit.specs.declared.units.OpenUnit.{OpenUnit as Unit};
ghost use Rattle.open_unit.specs.Ranges.{UnitInRanges};
ghost use Rattle.outlines.specs.Marks.{mark_of};
ghost use Rattle.outlines.specs.Outcomes.{EntryWithin};
ghost use Rattle.residual_table.specs.Keys.{Grows, Tables as Numbers};
ghost use Rattle.search_steps.specs.Listing.{AreListed, IsListed, KeepsUnit, LeavesUnit, StepsOneMore, leaves_by};
ghost use Rattle.search_steps.specs.Numbers.{AreStepsOf, IsBare};
ghost use Rattle.search_steps.specs.Shortening.{HasNoDearer};

use crate::numbered::Step;
use crate::shortening::{have_one_mark, shortened};
use fare_law::{Mem, Place};
use open_unit::OpenUnit;
use outlines::{Entry, facts_of};
use residual_table::ResidualParts;
use std::alloc::Global;

/// What the components of a list do: they stand alone, open a unit, or go on in this unit or close it.
#[derive(Clone, Copy)]
pub enum Doing {
    Alone,
    Opening,
    Joining(OpenUnit),
}

/// What a list is of: what its components do, the place where they begin, and the day of sale.
#[derive(Clone, Copy)]
pub struct Listing {
    pub doing: Doing,
    pub begin: Place,
    pub sale: i32,
}

/// The entries of a table, each with what it is where it leaves no unit open, and with how many of its run there are from it on.
#[derive(Clone, Copy)]
pub struct TableSteps<'a> {
    pub entries: &'a [Entry],
    pub bare: &'a [Step],
    pub runs: &'a [u16],
}

/// Makes the list of a table by numbers, where there is no step yet.
pub fn make_list(
    alloc: Global,
    steps: &mut Vec<Step>,
    numbers: &mut ResidualParts,
    listing: &Listing,
    table: &TableSteps<'_>,
) -> Result<(), Mem>
    requires empty { steps.old.items ≡ [] }
    requires sale { IsCalendarDay listing.now.sale }
    requires unit { KeepsUnit listing.now.doing }
    requires table { AreListed numbers.old table.now }
    ensures steps { OnOk result (AreStepsOf numbers.new (IsListed listing.now) table.now.entries.now steps.new.items) }
    ensures grows { Grows numbers.old numbers.new }
{
    add_all(steps, numbers, listing, table)?;
    if !leave_none_open(steps.as_slice()) {
        let kept = shortened(alloc, steps.as_slice())?;
        *steps = kept;
    }
    Ok(())
}

/// The same with steps that another of their mark makes idle, unless the one is right before the other.
fn add_all(
    steps: &mut Vec<Step>,
    numbers: &mut ResidualParts,
    listing: &Listing,
    table: &TableSteps<'_>,
) -> Result<(), Mem>
    requires empty { steps.old.items ≡ [] }
    requires sale { IsCalendarDay listing.now.sale }
    requires unit { KeepsUnit listing.now.doing }
    requires table { AreListed numbers.old table.now }
    ensures steps { OnOk result (AreStepsOf numbers.new (IsListed listing.now) table.now.entries.now steps.new.items) }
    ensures grows { Grows numbers.old numbers.new }
{
    let mut at = 0;
    while at < table.entries.len() {
        at = add_from(steps, numbers, listing, table, at)?;
    }
    Ok(())
}

/// Adds what the component of the entry at a place is, and tells where to go on. Where a step with its mark is there at no
/// higher price, all entries of its run are passed over: an open unit takes one of many that close it alike.
fn add_from(
    steps: &mut Vec<Step>,
    numbers: &mut ResidualParts,
    listing: &Listing,
    table: &TableSteps<'_>,
    at: usize,
) -> Result<usize, Mem>
    requires at { at < length table.now.entries.now }
    requires sale { IsCalendarDay listing.now.sale }
    requires unit { KeepsUnit listing.now.doing }
    requires table { AreListed numbers.old table.now }
    ensures later { IfOk result (λ next. at < next) }
    ensures within { IfOk result (λ next. next ≤ length table.now.entries.now) }
    ensures steps { IfOk result (λ next. AreStepsOf numbers.old (IsListed listing.now) (take at table.now.entries.now) steps.old.items → AreStepsOf numbers.new (IsListed listing.now) (take next table.now.entries.now) steps.new.items) }
    ensures grows { Grows numbers.old numbers.new }
{
    let entry = &table.entries[at];
    let bare = &table.bare[at];
    if leaves_unit(listing, entry) {
        add_open(steps, numbers, listing, entry, bare)?;
        return Ok(at + 1);
    }
    if is_listed(steps.as_slice(), bare) {
        return Ok(at + usize::from(table.runs[at]));
    }
    add_bare(steps, listing, entry, bare)?;
    Ok(at + 1)
}

/// Whether no unit stays open after any of these: then those of one mark mostly stand together, and one of them is there.
fn leave_none_open(steps: &[Step]) -> bool {
    steps.iter().all(|step| step.unit == 0)
}

/// Adds what an entry's component is where it leaves no unit open.
fn add_bare(steps: &mut Vec<Step>, listing: &Listing, entry: &Entry, bare: &Step) -> Result<(), Mem>
    requires sale { IsCalendarDay listing.now.sale }
    requires unit { KeepsUnit listing.now.doing }
    requires within { EntryWithin entry.now }
    requires bare { LeavesUnit listing.now entry.now false }
    ensures { OnOk result ((t : Numbers) → IsBare t entry.now bare.now → StepsOneMore t t (IsListed listing.now) entry.now steps.old.items steps.new.items) }
{
    if stands_bare(listing, entry) {
        steps.push(*bare)?;
    }
    Ok(())
}

/// Adds what it is where it leaves a unit open.
fn add_open(
    steps: &mut Vec<Step>,
    numbers: &mut ResidualParts,
    listing: &Listing,
    entry: &Entry,
    bare: &Step,
) -> Result<(), Mem>
    requires sale { IsCalendarDay listing.now.sale }
    requires unit { KeepsUnit listing.now.doing }
    requires within { EntryWithin entry.now }
    requires is_open { LeavesUnit listing.now entry.now true }
    requires bare { IsBare numbers.old entry.now bare.now }
    ensures steps { OnOk result (StepsOneMore numbers.old numbers.new (IsListed listing.now) entry.now steps.old.items steps.new.items) }
    ensures grows { Grows numbers.old numbers.new }
{
    if bare.after == 0 {
        return Ok(());
    }
    if let Some(unit) = unit_after(listing, entry) {
        let unit = numbers.unit_slot(&Some(unit))?;
        steps.push(Step { unit, ..*bare })?;
    }
    Ok(())
}

/// Whether an entry's component leaves a unit open, if it may stand in the list at all.
fn leaves_unit(listing: &Listing, entry: &Entry) -> bool
    ensures leaves { LeavesUnit listing.now entry.now result }
    ensures by { result ≡ leaves_by listing.now.doing entry.now.outline.reverse }
{
    match listing.doing {
        Doing::Alone => false,
        Doing::Opening => true,
        Doing::Joining(_) => !entry.outline.reverse,
    }
}

/// Whether the last of these has the mark of a step, at no higher price.
fn is_listed(steps: &[Step], bare: &Step) -> bool
    ensures { IsTrue result → HasNoDearer steps.now bare.now }
{
    match steps.last() {
        Some(last) => last.price <= bare.price && have_one_mark(last, bare),
        None => false,
    }
}

/// Whether an entry's component may stand in the list where it leaves no unit open.
fn stands_bare(listing: &Listing, entry: &Entry) -> bool
    requires sale { IsCalendarDay listing.now.sale }
    requires unit { KeepsUnit listing.now.doing }
    requires within { EntryWithin entry.now }
    ensures { IsTrue result ↔ IsListed listing.now entry.now (mark_of entry.now None) }
{
    let facts = facts_of(listing.begin, listing.sale, entry);
    match &listing.doing {
        Doing::Alone => OpenUnit::alone_by(&facts),
        Doing::Opening => false,
        Doing::Joining(unit) => unit.close_by(&facts).is_some(),
    }
}

/// The unit that an entry's component leaves open, where it may stand in the list so and the journey goes on.
fn unit_after(listing: &Listing, entry: &Entry) -> Option<OpenUnit>
    requires sale { IsCalendarDay listing.now.sale }
    requires unit { KeepsUnit listing.now.doing }
    requires within { EntryWithin entry.now }
    ensures unit { IsSome entry.now.outline.after → (u : Unit) → (result ≡ Some u) ↔ IsListed listing.now entry.now (mark_of entry.now (Some u)) }
    ensures within { IfSome result UnitInRanges }
{
    let facts = facts_of(listing.begin, listing.sale, entry);
    match &listing.doing {
        Doing::Alone => None,
        Doing::Opening => OpenUnit::first_by(&facts),
        Doing::Joining(unit) => unit.go_on_by(&facts),
    }
}
