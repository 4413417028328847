//! The least version that each desk's next reply may have.
ghost use Rattle.std.specs.Prelude.{◌≡◌, ◌≤◌, ◌<◌, ◌+◌, ◌^◌, length, max};
ghost use Rattle.serve_desks.specs.Judging.{accepted};
ghost use Rattle.serve_desks.specs.Logs.{floor_of, waited_for, with_floor};

use crate::Filed;

/// How many of the filings were accepted.
fn accepted(filed: &[Filed]) -> usize
    ensures value { result ≡ accepted filed.now }
    ensures few { result ≤ length filed.now }
{
    match filed {
        [] => 0,
        [Filed::Accepted { .. }, rest @ ..] => accepted(rest) + 1,
        [Filed::Refused(_), rest @ ..] => accepted(rest),
    }
}

/// The desk's floor.
pub(crate) fn floor_of(floors: &[u32], desk: u32) -> u32
    requires { (1 ≤ desk) × (desk ≤ length floors.now) }
    ensures { result ≡ floor_of floors.now desk }
{
    floors[desk as usize - 1]
}

/// Gives the desk this floor.
pub(crate) fn set_floor(floors: &mut Vec<u32>, desk: u32, floor: u32)
    requires { (1 ≤ desk) × (desk ≤ length floors.old.items) }
    ensures floors { floors.new.items ≡ with_floor floors.old.items desk floor }
    ensures desks { length floors.new.items ≡ length floors.old.items }
{
    floors[desk as usize - 1] = floor;
}

/// Gives the desk this floor, where it is higher than its own.
pub(crate) fn raise_floor(floors: &mut Vec<u32>, desk: u32, floor: u32)
    requires { (1 ≤ desk) × (desk ≤ length floors.old.items) }
    ensures floors { floors.new.items ≡ with_floor floors.old.items desk (max (floor_of floors.old.items desk) floor) }
    ensures desks { length floors.new.items ≡ length floors.old.items }
{
    let floor = floor_of(floors.as_slice(), desk).max(floor);
    set_floor(floors, desk, floor);
}

/// The least version after so many of the later filings were judged.
pub(crate) fn waited_for(opening: u32, filed: &[Filed], count: u32) -> u32
    requires count { count ≤ length filed.now }
    requires small { opening + accepted filed.now < 2 ^ 32 }
    ensures value { result ≡ waited_for opening filed.now count }
    ensures low { result ≤ opening + accepted filed.now }
{
    opening + accepted(&filed[..count as usize]) as u32
}
