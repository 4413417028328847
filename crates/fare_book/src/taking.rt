//! The actions of a filing, one after another.
ghost use Rattle.std.specs.Prelude.{◌≡◌, ◌<◌, ◌^◌, [], length, IfErr, OnOk};
ghost use Rattle.fare_law.specs.Book.{Book as Version};
ghost use Rattle.fare_law.specs.Faults.{filed};
ghost use Rattle.fare_law.specs.FilingLimits.{IsAction};
ghost use Rattle.fare_law.specs.Lists.{Each};
ghost use Rattle.fare_book.specs.Drafts.{Acts, Drafts};
ghost use Rattle.fare_book.specs.Taking.{NoneStops, StopsAt, fault_at};

use crate::BookFault;
use crate::draft::{Draft, Stop};
use crate::fare_actions::{drop_fare, put_fare};
use crate::rule_actions::{drop_rule, put_rule};
use crate::seat_actions::{drop_seats, put_seats};
use fare_law::{Action, Refused};
use std::alloc::Global;

/// Takes the actions in order, up to the first that has a fault.
pub fn take_actions(draft: &mut Draft, alloc: Global, actions: &[Action]) -> Result<(), BookFault>
    requires few { length actions.now < 2 ^ 32 }
    requires each { Each IsAction actions.now }
    ensures taken { OnOk result ((b : Version) → Drafts (filed b []) draft.old → Drafts (filed b actions.now) draft.new × NoneStops b actions.now) }
    ensures refused { IfErr result (λ fault. (b : Version) → Drafts (filed b []) draft.old → StopsAt b actions.now fault) }
{
    for (i, action) in actions.iter().enumerate() {
        match act(draft, alloc, action) {
            Ok(()) => {}
            Err(stop) => return Err(fault_at(i as u32 + 1, stop)),
        }
    }
    Ok(())
}

/// What stops at an action, counted from 1.
fn fault_at(action: u32, stop: Stop) -> BookFault
    ensures { result ≡ fault_at action stop }
{
    match stop {
        Stop::Fault(why) => BookFault::Refused(Refused { action, why }),
        Stop::Mem => BookFault::Mem,
    }
}

/// Takes one action.
fn act(draft: &mut Draft, alloc: Global, action: &Action) -> Result<(), Stop>
    requires { IsAction action.now }
    ensures { Acts action.now draft.old draft.new result }
{
    match action {
        Action::PutFare(fare) => put_fare(draft, alloc, fare),
        Action::DropFare(key) => drop_fare(draft, alloc, key),
        Action::PutRule(carrier, number, rule) => put_rule(draft, *carrier, *number, rule),
        Action::DropRule(carrier, number) => drop_rule(draft, *carrier, *number),
        Action::PutSeats(key, seats) => put_seats(draft, alloc, key, seats),
        Action::DropSeats(key) => drop_seats(draft, key),
    }
}
