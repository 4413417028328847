//! The numbers of flights by origin.
ghost use Rattle.std.specs.Prelude.{◌≡◌, ◌≤◌, ◌<◌, ◌%◌, length, map, true, false, IfOk, IsTrue};
ghost use Rattle.std.specs.List.Sorted.{IsPartitionPoint, IsSorted};
ghost use Rattle.std.specs.Ordering.{is_lt, nat_cmp};
ghost use Rattle.fare_law.specs.Limits.{IsFlight};
ghost use Rattle.fare_law.specs.Lists.{Each};
ghost use Rattle.schedule_book.specs.Departures.{AreDepartures, Indexes, IsKey, origins, packed};

use crate::parts::Parts;
use fare_law::{Flight, MOST_DATED_FLIGHTS, Mem, Place};
use std::alloc::Global;

/// The origins of flights in order, each with the flight's number and packed with it into one
/// number, and the flights' numbers alone.
#[derive(Drop)]
pub struct Departures {
    keys: Vec<u64>,
    numbers: Vec<u32>,
    /// Where the key of each flight stands. What is read here is looked up before it is believed.
    spots: Vec<u32>,
    parts: Parts,
}

impl Departures {
    /// The index of flights.
    pub fn of(alloc: Global, flights: &[Flight]) -> Result<Departures, Mem>
        requires few { length flights.now ≤ MOST_DATED_FLIGHTS }
        requires limits { Each IsFlight flights.now }
        ensures { IfOk result (λ d. Indexes flights.now d.keys.items d.numbers.items) }
    {
        let mut keys = origins_of(alloc, flights)?;
        keys.sort_unstable();
        let numbers = numbers_of(alloc, keys.as_slice())?;
        let spots = spots_of(alloc, numbers.as_slice())?;
        let parts = Parts::of(alloc, keys.as_slice())?;
        Ok(Departures {
            keys,
            numbers,
            spots,
            parts,
        })
    }

    /// The numbers from `lo` to `hi - 1` of the flights that depart from a place, ascending.
    pub fn between(&self, flights: &[Flight], place: Place, lo: u32, hi: u32) -> &[u32]
        requires { Indexes flights.now self.now.keys.items self.now.numbers.items }
        ensures { AreDepartures flights.now place lo hi result.now }
    {
        if hi <= lo {
            return &[];
        }
        let first = self.find(lo, packed(place, lo));
        let end = self.find(hi, packed(place, hi));
        let (_, after) = self.numbers.as_slice().split_at(first);
        let (part, _) = after.split_at(end - first);
        part
    }

    /// How many keys come before that of a number. Most ranges begin and end with flights from their place, so it is
    /// looked for first where that flight's key stands, and then among those of its place.
    fn find(&self, number: u32, key: u64) -> usize
        requires { IsSorted nat_cmp self.now.keys.items }
        ensures bound { result ≤ length self.now.keys.items }
        ensures point { IsPartitionPoint (λ k. is_lt (nat_cmp k key) ≡ true) (λ k. is_lt (nat_cmp k key) ≡ false) self.now.keys.items result }
    {
        let keys = self.keys.as_slice();
        let spot = spot_of(self.spots.as_slice(), number);
        if stands_at(keys, spot, key) {
            return spot;
        }
        let near = self.parts.guess(keys, key);
        if stands_at(keys, near, key) {
            return near;
        }
        keys.partition_point(|k| *k < key)
    }
}

/// The origin and the number of each flight.
fn origins_of(alloc: Global, flights: &[Flight]) -> Result<Vec<u64>, Mem>
    requires { length flights.now ≤ MOST_DATED_FLIGHTS }
    ensures { IfOk result (λ keys. keys.items ≡ map packed (origins 0 flights.now)) }
{
    let mut keys = Vec::with_capacity(alloc, flights.len())?;
    for i in 0..flights.len() {
        keys.push(packed(flights[i].from, i as u32))?;
    }
    Ok(keys)
}

/// The flights' numbers in these keys.
fn numbers_of(alloc: Global, keys: &[u64]) -> Result<Vec<u32>, Mem>
    ensures { IfOk result (λ numbers. numbers.items ≡ map (λ key. key % 4294967296) keys.now) }
{
    let mut numbers = Vec::with_capacity(alloc, keys.len())?;
    for key in keys {
        numbers.push((*key % 4294967296) as u32)?;
    }
    Ok(numbers)
}

/// Where each of these numbers stands.
fn spots_of(alloc: Global, numbers: &[u32]) -> Result<Vec<u32>, Mem> {
    let mut spots = vec![in alloc; 0; numbers.len()]?;
    let mut at = 0_u32;
    for number in numbers {
        if let Some(spot) = spots.get_mut(*number as usize) {
            *spot = at;
        }
        at = at.saturating_add(1);
    }
    Ok(spots)
}

/// Where a number stands, or 0.
fn spot_of(spots: &[u32], number: u32) -> usize
    ensures { result < 4294967296 }
{
    match spots.get(number as usize) {
        Some(spot) => *spot as usize,
        None => 0,
    }
}

/// A place and a number as one number, which compares as the two do.
fn packed(place: Place, number: u32) -> u64
    ensures value { result ≡ packed (place, number) }
    ensures key { IsKey (place, number) }
{
    let [a, b, c] = place.0;
    let letters = (u64::from(a) * 256 + u64::from(b)) * 256 + u64::from(c);
    letters * 4294967296 + u64::from(number)
}

/// Whether it can be told at once that so many keys come before a key.
fn stands_at(keys: &[u64], place: usize, key: u64) -> bool
    requires { IsSorted nat_cmp keys.now }
    ensures bound { IsTrue result → place ≤ length keys.now }
    ensures point { IsTrue result → IsPartitionPoint (λ k. is_lt (nat_cmp k key) ≡ true) (λ k. is_lt (nat_cmp k key) ≡ false) keys.now place }
{
    if place == 0 {
        return false;
    }
    if keys.len() <= place {
        return false;
    }
    if key <= keys[place - 1] {
        return false;
    }
    key <= keys[place]
}
