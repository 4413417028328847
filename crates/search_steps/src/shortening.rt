//! Lists of steps, each mark once at its least price.
ghost use Rattle.std.specs.Prelude.{◌≡◌, ◌↔◌, [], ◌∷◌, ◌++◌, IfOk, IsTrue, OnOk};
ghost use Rattle.search_steps.specs.Shortening.{HasMarkAt, HaveOneMark, IsShorter};

use crate::guesses::Guesses;
use crate::numbered::Step;
use fare_law::{EndOnEnd, Mem};
use std::alloc::Global;

/// The steps, each mark once at its least price.
pub fn shortened(alloc: Global, steps: &[Step]) -> Result<Vec<Step>, Mem>
    ensures { IfOk result (λ kept. IsShorter steps.now kept.items) }
{
    let mut places = Guesses::new(alloc);
    places.widen(steps.len().saturating_mul(2))?;
    let mut kept = Vec::new(alloc);
    for step in steps {
        add_once(&mut kept, &mut places, step)?;
    }
    Ok(kept)
}

/// Adds one where none has its mark, and else lowers the price of the one that has.
fn add_once(kept: &mut Vec<Step>, places: &mut Guesses, step: &Step) -> Result<(), Mem>
    ensures { OnOk result (IsShorter (kept.old.items ++ step.now ∷ []) kept.new.items) }
{
    match find(kept.as_slice(), places, step) {
        Ok(place) => lower(kept.as_mut_slice(), place, step),
        Err(spot) => {
            places.put(spot, kept.len());
            kept.push(*step)?;
        }
    }
    Ok(())
}

/// Where the step of a mark stands. Err: there is none, and its place belongs at this spot.
fn find(kept: &[Step], places: &Guesses, step: &Step) -> Result<usize, usize>
    ensures { IfOk result (HasMarkAt kept.now step.now) }
{
    let mut spot = places.spot_of(leads_of(step), flies_of(step));
    for _turn in 0..kept.len() {
        let place = places.get(spot).unwrap_or(usize::MAX);
        let Some(known) = kept.get(place) else {
            return Err(spot);
        };
        if have_one_mark(known, step) {
            return Ok(place);
        }
        spot = places.next_spot(spot);
    }
    Err(spot)
}

/// Puts a step in for one of its mark that costs more.
fn lower(kept: &mut [Step], place: usize, step: &Step)
    requires { HasMarkAt kept.old step.now place }
    ensures { IsShorter (kept.old ++ step.now ∷ []) kept.new }
{
    let known = &kept[place];
    if step.price < known.price {
        kept[place] = *step;
    }
}

/// Whether the steps have one mark.
pub fn have_one_mark(one: &Step, other: &Step) -> bool
    ensures { IsTrue result ↔ HaveOneMark one.now other.now }
{
    one.after == other.after
        && one.unit == other.unit
        && one.carrier.is(other.carrier)
        && same_end(one.ends, other.ends)
}

fn same_end(one: EndOnEnd, other: EndOnEnd) -> bool
    ensures { IsTrue result ↔ (one ≡ other) }
{
    match one {
        EndOnEnd::Free => matches!(other, EndOnEnd::Free),
        EndOnEnd::SameCarrier => matches!(other, EndOnEnd::SameCarrier),
        EndOnEnd::Never => matches!(other, EndOnEnd::Never),
    }
}

/// What a step leads to, as one number.
fn leads_of(step: &Step) -> usize {
    let [a, b, c, d] = step.after.to_le_bytes();
    let [e, f, g, h] = step.unit.to_le_bytes();
    usize::from_le_bytes([a, b, c, d, e, f, g, h])
}

/// What else its mark has, as one number.
fn flies_of(step: &Step) -> u32 {
    let [a, b] = step.carrier.0;
    u32::from_le_bytes([a, b, end_number(step.ends), 0])
}

/// A number for an end.
fn end_number(ends: EndOnEnd) -> u8 {
    match ends {
        EndOnEnd::Free => 0,
        EndOnEnd::SameCarrier => 1,
        EndOnEnd::Never => 2,
    }
}
