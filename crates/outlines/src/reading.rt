//! What a unit reads of an entry's component, and what its rule asks of the whole ticket.
ghost use Rattle.std.specs.Prelude.{◌≡◌};
ghost use Rattle.fare_law.specs.Days.{IsCalendarDay};
ghost use Rattle.open_unit.specs.Ranges.{PieceInRanges};
ghost use Rattle.outlines.specs.Marks.{ends_of, written};
ghost use Rattle.outlines.specs.Outcomes.{EntryWithin};

use crate::Entry;
use fare_law::{CombineRule, EndOnEnd, Place, Rule};
use fare_rules::rules_stay_in_range;
use open_unit::Facts;

/// What a unit reads of an entry's component, which begins at this place and is sold on this day.
pub fn facts_of<'a>(begin: Place, sale: i32, entry: &'a Entry) -> Facts<'a>
    requires sale { IsCalendarDay sale }
    requires within { EntryWithin entry.now }
    ensures facts { result ≡ written begin sale entry.now }
    ensures in_ranges { PieceInRanges result }
{
    rules_stay_in_range();
    let outline = &entry.outline;
    let rule: &Rule = &entry.rule;
    Facts {
        begin,
        end: outline.end,
        carrier: outline.carrier,
        number: outline.number,
        kind: outline.kind,
        rule,
        reverse: outline.reverse,
        first_day: outline.first,
        last_day: outline.last,
        sale,
    }
}

/// What category 10 asks of the whole ticket.
pub fn ends_of(combine: &Option<CombineRule>) -> EndOnEnd
    ensures { result ≡ ends_of combine.now }
{
    match combine {
        Some(combine) => combine.end_on_end,
        None => EndOnEnd::Free,
    }
}
