//! The judgement of requests.
ghost use Rattle.std.specs.List.{list_all};
ghost use Rattle.std.specs.Prelude.{◌≡◌, None, Some, IfErr, OnOk};
ghost use Rattle.fare_law.specs.Limits.{IsRequest};
ghost use Rattle.fare_law.specs.Requests.{are_known, departs, has_window, in_century, is_known, judged, known_places, within};
ghost use Rattle.search_core.specs.KnownPlaces.{known_rows};

use crate::schedules::schedule_of;
use fare_book::Book;
use fare_law::{Place, Request, Slice, Why, requests_are_judged};
use schedule_book::Schedule;

/// Whether a request is one, or the first reason for which it is refused. It is judged by the timetable
/// alone.
pub fn request_ok(book: &Book, request: &Request) -> Result<(), Why>
    ensures right { OnOk result (judged (known_places book.now) request.now ≡ None) }
    ensures limits { OnOk result (IsRequest request.now) }
    ensures wrong { IfErr result (λ why. judged (known_places book.now) request.now ≡ Some why) }
{
    requests_are_judged();
    let schedule = schedule_of(book);
    schedule.limits();
    judge(schedule, request)
}

/// The same, by the places of a schedule.
fn judge(schedule: &Schedule, request: &Request) -> Result<(), Why>
    ensures right { OnOk result (judged (known_rows schedule.now.places) request.now ≡ None) }
    ensures wrong { IfErr result (λ why. judged (known_rows schedule.now.places) request.now ≡ Some why) }
{
    let slices = request.slices.as_slice();
    if !within(1, 6, slices.len()) {
        return Err(Why::Slices);
    }
    if !within(1, 9, request.party as usize) {
        return Err(Why::Party);
    }
    if !within(1, 1000, request.best as usize) {
        return Err(Why::Best);
    }
    if !(in_century(request.sale) && have_windows(slices)) {
        return Err(Why::Window);
    }
    if !depart(slices) {
        return Err(Why::SamePlace);
    }
    if !know_places(schedule, slices) {
        return Err(Why::UnknownPlace);
    }
    Ok(())
}

/// Whether each window has 1 to 7 days.
fn have_windows(slices: &[Slice]) -> bool
    ensures { result ≡ list_all has_window slices.now }
{
    slices.iter().all(has_window)
}

/// Whether each slice ends elsewhere than it begins.
fn depart(slices: &[Slice]) -> bool
    ensures { result ≡ list_all departs slices.now }
{
    slices.iter().all(departs)
}

/// Whether the schedule has all places of the slices.
fn know_places(schedule: &Schedule, slices: &[Slice]) -> bool
    ensures { result ≡ list_all (are_known (known_rows schedule.now.places)) slices.now }
{
    slices.iter().all(|slice| are_known(schedule, slice))
}

/// Whether a number lies from `low` to `high`.
fn within(low: usize, high: usize, number: usize) -> bool
    ensures { result ≡ within low high number }
{
    low <= number && number <= high
}

/// Whether a day is from 2000-01-01 to 2099-12-31.
fn in_century(day: i32) -> bool
    ensures { result ≡ in_century day }
{
    10957 <= day && day <= 47481
}

/// Whether a window has 1 to 7 days.
fn has_window(slice: &Slice) -> bool
    ensures { result ≡ has_window slice.now }
{
    in_century(slice.first) && within(1, 7, slice.days as usize)
}

/// Whether a slice ends elsewhere than it begins.
fn departs(slice: &Slice) -> bool
    ensures { result ≡ departs slice.now }
{
    slice.from != slice.to
}

/// Whether the schedule has both places of a slice.
fn are_known(schedule: &Schedule, slice: &Slice) -> bool
    ensures { result ≡ are_known (known_rows schedule.now.places) slice.now }
{
    is_known(schedule, slice.from) && is_known(schedule, slice.to)
}

/// Whether the schedule has a place.
#[tactic(auto, using(crate::proofs::Places::connect_known))]
fn is_known(schedule: &Schedule, place: Place) -> bool
    ensures { result ≡ is_known (known_rows schedule.now.places) place }
{
    schedule.connect(place).is_some()
}
