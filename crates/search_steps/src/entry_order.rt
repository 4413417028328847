//! The order in which the entries of a table are kept.
ghost use Rattle.std.specs.List.Sorted.{IsPermutation};

use fare_law::{CombineRule, EndOnEnd, List};
use flight_paths::Position;
use outlines::Entry;

/// What entries are put in order by, in two numbers. Those that close units alike have all of it in common but the price;
/// so have a few others, which are then put among them.
#[derive(Clone, Copy, PartialEq, Eq, PartialOrd, Ord)]
struct EntryOrder {
    /// Where they lead, and the letters of the carrier.
    leads: u64,
    /// Which way they are filed, what they ask of the whole ticket, and the price.
    costs: u64,
}

/// The entries so that those that close units alike stand together, and the cheapest of them stands first: the list of an
/// open unit then takes the first that may, and passes by the others.
pub fn in_order(entries: List<Entry>) -> List<Entry>
    ensures { IsPermutation entries result }
{
    let mut entries = entries.into_vec();
    entries.sort_unstable_by_key(order_of);
    List::from_vec(entries)
}

fn order_of(entry: &Entry) -> EntryOrder {
    let outline = &entry.outline;
    let [a, b] = outline.carrier.0;
    let range = range_of(&outline.after);
    let way = u64::from(outline.reverse) << 2 | end_number(&entry.rule.cat10);
    EntryOrder {
        leads: range << 16 | u64::from(u16::from_le_bytes([a, b])),
        costs: way << 61 | entry.price,
    }
}

/// The range of a position as a number: of long ranges the last digits are left out.
fn range_of(after: &Option<Position>) -> u64 {
    match after {
        Some(at) => u64::from(at.lo) << 20 ^ u64::from(at.hi) << 2 ^ u64::from(at.leg),
        None => 0,
    }
}

/// A number for what category 10 asks of the whole ticket.
fn end_number(combine: &Option<CombineRule>) -> u64 {
    match combine {
        Some(combine) => match combine.end_on_end {
            EndOnEnd::Free => 0,
            EndOnEnd::SameCarrier => 1,
            EndOnEnd::Never => 2,
        },
        None => 0,
    }
}
