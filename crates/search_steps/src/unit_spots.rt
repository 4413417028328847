//! Where the lists of open units stand: their places by spots, which are looked at one after another.
ghost use Rattle.std.specs.Prelude.{◌≢◌, IfSome};
ghost use Rattle.search_steps.specs.Numbers.{UnitStandsAt};

use crate::guesses::Guesses;
use crate::numbered::{UnitSlot, UnitSteps};
use fare_law::Mem;
use std::alloc::Global;

/// Where the list of an open unit stands, if it stands anywhere.
pub fn find_unit_steps(units: &[UnitSteps], places: &Guesses, key: &UnitSlot) -> Option<usize>
    requires { key.now.slot ≢ 0 }
    ensures { IfSome result (UnitStandsAt units.now key.now.place key.now.slot) }
{
    let mut spot = places.near_spot(key.slot, key.place);
    for _turn in 0..units.len() {
        let guess = places.get(spot);
        if let Some(at) = unit_at(units, guess, key) {
            return Some(at);
        }
        if guess.unwrap_or(usize::MAX) >= units.len() {
            return None;
        }
        spot = places.far_spot(key.slot, spot);
    }
    None
}

/// The place, if the list of the open unit stands there.
pub fn unit_at(units: &[UnitSteps], at: Option<usize>, key: &UnitSlot) -> Option<usize>
    requires { key.now.slot ≢ 0 }
    ensures { IfSome result (UnitStandsAt units.now key.now.place key.now.slot) }
{
    let at = at?;
    let steps = units.get(at)?;
    if steps.place == key.place && steps.slot == key.slot {
        Some(at)
    } else {
        None
    }
}

/// Adds the place of the list that comes after these, of which there are few for each spot.
pub fn add_place(
    alloc: Global,
    places: &mut Guesses,
    units: &[UnitSteps],
    key: &UnitSlot,
) -> Result<(), Mem> {
    let at = units.len();
    if places.len() / 2 <= at {
        *places = places_of(alloc, units)?;
    }
    let spot = free_spot(places, key.slot, key.place, at);
    places.put(spot, at);
    Ok(())
}

/// The places of these lists, with room for as many more and others.
fn places_of(alloc: Global, units: &[UnitSteps]) -> Result<Guesses, Mem> {
    let mut places = Guesses::new(alloc);
    places.widen(units.len().saturating_add(1).saturating_mul(4))?;
    for at in 0..units.len() {
        let steps = &units[at];
        let spot = free_spot(&places, steps.slot, steps.place, at);
        places.put(spot, at);
    }
    Ok(places)
}

/// The first spot of a slot and a table where none of so many lists stands.
fn free_spot(places: &Guesses, slot: u32, place: usize, count: usize) -> usize {
    let mut spot = places.near_spot(slot, place);
    for _turn in 0..count {
        if places.get(spot).unwrap_or(usize::MAX) >= count {
            return spot;
        }
        spot = places.far_spot(slot, spot);
    }
    spot
}
