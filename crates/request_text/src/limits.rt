//! The limits of a request.
ghost use Rattle.std.specs.Prelude.{◌≡◌, ◌≤◌, ◌<◌, length, IfOk, IfSome};
ghost use Rattle.std.specs.Int.{IsInRange};
ghost use Rattle.std.specs.List.{list_any};
ghost use Rattle.fare_law.specs.Limits.{IsRequest, IsSlice};
ghost use Rattle.fare_law.specs.Lists.{Each};
ghost use Rattle.request_text.specs.Form.{IsAsked, IsAskedSlice};
ghost use Rattle.request_text.specs.Limits.{allowed};
ghost use Rattle.request_text.specs.Steps as Steps;

use crate::asked::{Asked, AskedSlice};
use fare_law::{
    ArrayVec, MOST_PASSENGERS, MOST_SLICES, MOST_TICKETS, MOST_WINDOW_DAYS, Request, Slice, Why,
};

/// The request that is asked for, or the first reason for which it is refused.
pub fn allowed(asked: &Asked) -> Result<Request, Why>
    requires { IsAsked asked.now }
    ensures value { result ≡ allowed asked.now }
    ensures limits { IfOk result IsRequest }
{
    in_turn(asked)
}

// The same, number by number.
#[tactic(auto, unfolding(crate::specs::Steps::in_turn), using(crate::proofs::WindowLemmas::all_depart))]
fn in_turn(asked: &Asked) -> Result<Request, Why>
    requires { IsAsked asked.now }
    ensures value { result ≡ Steps.in_turn asked.now }
    ensures limits { IfOk result IsRequest }
{
    let slices = asked.slices.as_slice();
    if slices.is_empty() || slices.len() > MOST_SLICES {
        return Err(Why::Slices);
    }
    let party = between(asked.terms.party, 1, u16::from(MOST_PASSENGERS)).ok_or(Why::Party)?;
    let best = between(asked.terms.best, 1, MOST_TICKETS).ok_or(Why::Best)?;
    let slices = windowed_each(slices).ok_or(Why::Window)?;
    if some_stays(slices.as_slice()) {
        return Err(Why::SamePlace);
    }
    Ok(Request {
        sale: asked.terms.sale,
        party: party as u8,
        best,
        slices,
    })
}

// The number, if it lies from `low` to `high`.
fn between(number: i128, low: u16, high: u16) -> Option<u16>
    ensures value { result ≡ Steps.between low high number }
    ensures within { IfSome result (IsInRange low high) }
{
    let number = u16::try_from(number).ok()?;
    if low <= number && number <= high {
        Some(number)
    } else {
        None
    }
}

// The slices, if each has a window of 1 to `MOST_WINDOW_DAYS` days.
#[tactic(auto, using(crate::proofs::WindowLemmas::window_steps))]
fn windowed_each(slices: &[AskedSlice]) -> Option<ArrayVec<Slice, MOST_SLICES>>
    requires few { length slices.now ≤ MOST_SLICES }
    requires each { Each IsAskedSlice slices.now }
    ensures value { result ≡ Steps.each_windowed slices.now }
    ensures windows { IfSome result (Each IsSlice) }
    ensures count { IfSome result (λ found. length found ≡ length slices.now) }
{
    let mut found = ArrayVec::new();
    for slice in slices {
        found.push(windowed(slice)?);
    }
    Some(found)
}

// The slice, if its window has 1 to `MOST_WINDOW_DAYS` days.
fn windowed(slice: &AskedSlice) -> Option<Slice>
    requires { IsAskedSlice slice.now }
    ensures value { result ≡ Steps.windowed slice.now }
    ensures window { IfSome result IsSlice }
{
    let days = between(slice.days, 1, u16::from(MOST_WINDOW_DAYS))?;
    Some(Slice {
        from: slice.from,
        to: slice.to,
        first: slice.first,
        days: days as u8,
    })
}

// Whether some slice ends where it begins.
fn some_stays(slices: &[Slice]) -> bool
    ensures { result ≡ list_any Steps.stays slices.now }
{
    slices.iter().any(|slice| slice.from == slice.to)
}
