//! What is kept of the whole ticket.
ghost use Rattle.std.specs.Prelude.{◌≡◌, ◌≤◌, ◌↔◌, IsTrue};
ghost use Rattle.residual_keys.specs.Kept.{PartKept};
ghost use Rattle.residual_keys.specs.Residuals.{PartAllows, ends_with, one_more, part_with, with_end};

use fare_law::{CombineRule, EndOnEnd};
use open_unit::{CarrierMark, Facts};

/// What the fares so far ask of the whole ticket.
#[derive(Clone, Copy, PartialEq, Eq, PartialOrd, Ord, Debug)]
pub struct TicketPart {
    /// Units begun: 0, 1, or 2 for two and more.
    pub units: u8,
    /// One carrier asked 1, one unit asked 2, added.
    pub ends: u8,
    pub carrier: CarrierMark,
}

/// The ticket part with one more component, which begins a unit or not.
pub fn part_with(part: &TicketPart, begins_unit: bool, facts: &Facts<'_>) -> TicketPart
    requires { PartKept part.now }
    ensures value { result ≡ part_with part.now begins_unit facts.now }
    ensures kept { PartKept result }
{
    TicketPart {
        units: one_more(begins_unit, part.units),
        ends: ends_with(&facts.rule.cat10, part.ends),
        carrier: part.carrier.with(facts.carrier),
    }
}

/// Units begun, with one more or not.
pub fn one_more(begins_unit: bool, units: u8) -> u8
    requires { units ≤ 2 }
    ensures value { result ≡ one_more begins_unit units }
    ensures kept { result ≤ 2 }
{
    match (begins_unit, units) {
        (false, _) => units,
        (true, 0) => 1,
        (true, _) => 2,
    }
}

/// What is asked of the whole ticket, with what one more fare asks.
fn ends_with(combine: &Option<CombineRule>, ends: u8) -> u8
    requires { ends ≤ 3 }
    ensures value { result ≡ ends_with combine.now ends }
    ensures kept { result ≤ 3 }
{
    match combine {
        Some(combine) => with_end(combine.end_on_end, ends),
        None => ends,
    }
}

/// What is asked of the whole ticket, with what one more end on end asks.
pub fn with_end(end: EndOnEnd, ends: u8) -> u8
    requires { ends ≤ 3 }
    ensures value { result ≡ with_end end ends }
    ensures kept { result ≤ 3 }
{
    match end {
        EndOnEnd::Free => ends,
        EndOnEnd::SameCarrier if ends % 2 == 1 => ends,
        EndOnEnd::SameCarrier => ends + 1,
        EndOnEnd::Never if ends >= 2 => ends,
        EndOnEnd::Never => ends + 2,
    }
}

/// Whether the fares so far meet what they ask of the whole ticket.
pub fn part_allows(part: &TicketPart) -> bool
    ensures { IsTrue result ↔ PartAllows part.now }
{
    let one_carrier = matches!(part.carrier, CarrierMark::One(_));
    (part.ends % 2 != 1 || one_carrier) && (part.ends < 2 || part.units == 1)
}
