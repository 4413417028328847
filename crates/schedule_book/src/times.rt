//! How many flights depart before an instant.
ghost use Rattle.std.specs.Prelude.{◌≡◌, ◌≤◌, int_lt, true, false, length, IsTrue};
ghost use Rattle.std.specs.List.Sorted.{IsPartitionPoint};
ghost use Rattle.fare_law.specs.Flights.{Earlier};
ghost use Rattle.fare_law.specs.Lists.{EachPair};

use crate::parts::fill_up;
use crate::spans::Spans;
use fare_law::{Flight, Mem};
use std::alloc::Global;

/// A span of time has two to this power minutes at least.
const LEAST: u32 = 3;

/// So many spans are told apart, at most.
const MOST: usize = 65_536;

/// How many flights depart up to the end of each span of time. What is read here is looked up before it is believed.
#[derive(Drop)]
pub struct Times {
    spans: Spans,
    counts: Vec<u32>,
}

impl Times {
    /// The counts of these flights, which are in order.
    pub fn of(alloc: Global, flights: &[Flight]) -> Result<Times, Mem> {
        let (first, last) = match flights {
            [first, .., last] => (first.dep, last.dep),
            _ => (0, 0),
        };
        let spans = Spans::of(first, last, LEAST, MOST);
        let mut counts = vec![in alloc; 0; spans.at(last).saturating_add(1)]?;
        let mut count = 0_u32;
        for flight in flights {
            count = count.saturating_add(1);
            if let Some(one) = counts.get_mut(spans.at(flight.dep)) {
                *one = count;
            }
        }
        fill_up(counts.as_mut_slice());
        Ok(Times { spans, counts })
    }

    /// How many of these flights depart before an instant.
    pub fn lower(&self, flights: &[Flight], at: i64) -> usize
        requires { EachPair Earlier flights.now }
        ensures bound { result ≤ length flights.now }
        ensures point { IsPartitionPoint (λ f. int_lt f.dep at ≡ true) (λ f. int_lt f.dep at ≡ false) flights.now result }
    {
        let near = self.guess(flights, at);
        if stands_at(flights, near, at) {
            return near;
        }
        flights.partition_point(|f| f.dep < at)
    }

    /// How many of them may depart before an instant.
    fn guess(&self, flights: &[Flight], at: i64) -> usize {
        let span = self.spans.at(at);
        let from = match span.checked_sub(1) {
            Some(before) => self.count(before),
            None => 0,
        };
        let to = self.count(span);
        if from <= to && to <= flights.len() {
            from.saturating_add(flights[from..to].partition_point(|flight| flight.dep < at))
        } else {
            0
        }
    }

    /// How many depart up to the end of a span.
    fn count(&self, span: usize) -> usize {
        match self.counts.get(span) {
            Some(count) => *count as usize,
            None => 0,
        }
    }
}

/// Whether it can be told at once that so many flights depart before an instant.
fn stands_at(flights: &[Flight], place: usize, at: i64) -> bool
    requires { EachPair Earlier flights.now }
    ensures bound { IsTrue result → place ≤ length flights.now }
    ensures point { IsTrue result → IsPartitionPoint (λ f. int_lt f.dep at ≡ true) (λ f. int_lt f.dep at ≡ false) flights.now place }
{
    if place == 0 {
        return false;
    }
    if flights.len() <= place {
        return false;
    }
    if !is_before(&flights[place - 1], at) {
        return false;
    }
    !is_before(&flights[place], at)
}

/// Whether a flight departs before an instant.
fn is_before(flight: &Flight, at: i64) -> bool
    ensures { result ≡ int_lt flight.now.dep at }
{
    flight.dep < at
}
