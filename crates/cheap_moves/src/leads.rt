//! The outlines of a position by which moves of a residual count, with their least totals.
ghost use Rattle.std.specs.Prelude.{◌≡◌, ◌≤◌, ◌+◌, ℕ, false, true, IfOk, OnOk};
ghost use Rattle.std.specs.List.Sorted.{IsPermutation};
ghost use Rattle.cheap_moves.specs.Leads.{AreLeads, IsUpTo, LeadAdded, LeastAs, LeastOf};
ghost use Rattle.component_table.specs.Tables.{IsTable};
ghost use Rattle.fare_law.specs.Limits.{IsRequest};
ghost use Rattle.open_unit.specs.Ranges.{PieceInRanges};
ghost use Rattle.outlines.specs.Outcomes.{EntryWithin};
ghost use Rattle.outlines.specs.Outlines.{piece_of};

use crate::MoveSearch;
use crate::bounds::{ResidualBounds, rest_after};
use crate::prospects::prospect_of;
use fare_law::{List, Mem, Role};
use open_unit::Facts;
use outlines::{Entry, Outline, facts_of};
use residual_keys::next_after;
use std::alloc::Global;

/// An outline of a residual's position, and a total that no move by a component of it is below.
#[derive(Clone, Copy)]
pub struct Lead {
    pub outline: Outline,
    pub total: u128,
}

/// The outlines of the table of a residual's position by which moves count, each with its least total.
pub fn leads_of<B: ResidualBounds>(
    alloc: Global,
    search: &MoveSearch<'_, B>,
    table: &[Entry],
) -> Result<List<Lead>, Mem>
    requires request { IsRequest search.now.request.now }
    requires table { IsTable search.now.book.now search.now.request.now search.now.residual.now.at table.now }
    ensures { IfOk result (AreLeads search.now.book.now search.now.request.now search.now.residual.now (B.bound search.now.bounds.now)) }
{
    let mut leads = List::new(alloc);
    for entry in table {
        add_entry(&mut leads, search, entry)?;
    }
    Ok(leads)
}

/// The leads in the order of their groups.
pub fn by_group(alloc: Global, leads: &[Lead]) -> Result<List<Lead>, Mem>
    ensures { IfOk result (IsPermutation leads.now) }
{
    let mut sorted = Vec::with_capacity(alloc, leads.len())?;
    for lead in leads {
        sorted.push(*lead)?;
    }
    sorted.sort_unstable_by_key(group_code);
    Ok(List::from_vec(sorted))
}

/// The number of a lead's group.
fn group_code(lead: &Lead) -> u32 {
    prospect_of(&lead.outline).code()
}

/// Adds an entry of the table to the leads, where moves count by it.
fn add_entry<B: ResidualBounds>(
    leads: &mut List<Lead>,
    search: &MoveSearch<'_, B>,
    entry: &Entry,
) -> Result<(), Mem>
    requires request { IsRequest search.now.request.now }
    requires within { EntryWithin entry.now }
    ensures { OnOk result (LeadAdded search.now.request.now search.now.residual.now (B.bound search.now.bounds.now) entry.now leads.old leads.new) }
{
    let residual = search.residual;
    let facts = facts_of(residual.at.place, search.request.sale, entry);
    match least_total(search, entry, &facts) {
        Some(total) => leads.push(Lead {
            outline: entry.outline,
            total,
        }),
        None => Ok(()),
    }
}

/// The least total of the moves by an entry's component, in whatever role and slot.
fn least_total<B: ResidualBounds>(
    search: &MoveSearch<'_, B>,
    entry: &Entry,
    facts: &Facts<'_>,
) -> Option<u128>
    requires facts { facts.now ≡ piece_of search.now.residual.now.at.place search.now.request.now.sale entry.now.rule entry.now.outline }
    requires in_ranges { PieceInRanges facts.now }
    ensures { LeastOf search.now.request.now search.now.residual.now (B.bound search.now.bounds.now) entry.now result }
{
    if entry.outline.reverse {
        least_closing(search, entry, facts)
    } else {
        least_forward(search, entry, facts)
    }
}

/// The least total where the entry's fare is filed in reverse.
fn least_closing<B: ResidualBounds>(
    search: &MoveSearch<'_, B>,
    entry: &Entry,
    facts: &Facts<'_>,
) -> Option<u128>
    requires facts { facts.now ≡ piece_of search.now.residual.now.at.place search.now.request.now.sale entry.now.rule entry.now.outline }
    requires in_ranges { PieceInRanges facts.now }
    requires reverse { entry.now.outline.reverse ≡ true }
    ensures { LeastOf search.now.request.now search.now.residual.now (B.bound search.now.bounds.now) entry.now result }
{
    search.residual.keeps();
    lesser(
        total_as(search, entry, facts, Role::Closes, 0),
        total_as(search, entry, facts, Role::Closes, 1),
    )
}

/// The least total where the entry's fare is filed forward.
fn least_forward<B: ResidualBounds>(
    search: &MoveSearch<'_, B>,
    entry: &Entry,
    facts: &Facts<'_>,
) -> Option<u128>
    requires facts { facts.now ≡ piece_of search.now.residual.now.at.place search.now.request.now.sale entry.now.rule entry.now.outline }
    requires in_ranges { PieceInRanges facts.now }
    requires forward { entry.now.outline.reverse ≡ false }
    ensures { LeastOf search.now.request.now search.now.residual.now (B.bound search.now.bounds.now) entry.now result }
{
    search.residual.keeps();
    let begun = lesser(
        total_as(search, entry, facts, Role::Alone, 0),
        total_as(search, entry, facts, Role::Opens, 0),
    );
    let gone_on = lesser(
        total_as(search, entry, facts, Role::GoesOn, 0),
        total_as(search, entry, facts, Role::GoesOn, 1),
    );
    lesser(begun, gone_on)
}

/// The lesser of two totals, where there is one.
fn lesser(one: Option<u128>, other: Option<u128>) -> Option<u128>
    ensures one { (n : ℕ) → IsUpTo one n → IsUpTo result n }
    ensures other { (n : ℕ) → IsUpTo other n → IsUpTo result n }
{
    match (one, other) {
        (Some(least), Some(total)) => Some(if least <= total { least } else { total }),
        (Some(least), None) => Some(least),
        (None, total) => total,
    }
}

/// The total of the move by an entry's component in a role and slot. None where there is none that counts.
fn total_as<B: ResidualBounds>(
    search: &MoveSearch<'_, B>,
    entry: &Entry,
    facts: &Facts<'_>,
    role: Role,
    slot: u8,
) -> Option<u128>
    requires facts { facts.now ≡ piece_of search.now.residual.now.at.place search.now.request.now.sale entry.now.rule entry.now.outline }
    requires in_ranges { PieceInRanges facts.now }
    ensures { LeastAs search.now.request.now search.now.residual.now (B.bound search.now.bounds.now) entry.now role slot result }
{
    let next = next_after(search.residual, entry.outline.after, facts, role, slot)?;
    let rest = rest_after(search.bounds, &next)?;
    Some(u128::from(entry.price) + u128::from(rest))
}
