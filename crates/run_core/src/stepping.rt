//! One event after another.
ghost use Rattle.std.specs.Prelude.{◌≡◌, ◌<◌, ◌^◌, ◌++◌, ℕ, All, List, length, reverse, IfErr, OnErr, OnOk};
ghost use Rattle.fare_law.specs.Book.{Book as Version};
ghost use Rattle.run_core.specs.Causes.{HasCause, StopsAt, taken};
ghost use Rattle.run_core.specs.Counting.{AreRecorded};
ghost use Rattle.run_core.specs.Worlds.{ComesOf, IsEvent, StepsTo, opened};
ghost use Rattle.run_core.specs.declared.events.Event.{Event as Happened};

use crate::{Event, StepFault, World};
use std::alloc::Global;

/// Takes one event. After a fault the world is unchanged.
pub fn step(alloc: Global, world: &mut World, event: &Event) -> Result<(), StepFault>
    requires { IsEvent event.now }
    ensures ok { OnOk result (StepsTo world.old event.now world.new) }
    ensures same { OnErr result (world.new ≡ world.old) }
    ensures cause { IfErr result (HasCause world.old event.now) }
{
    match event {
        Event::File { filing } => world.file(alloc, filing),
        Event::Look { desk } => world.look(*desk),
        Event::Fetch { desk, key: _ } => world.fetch(*desk),
        Event::Keep { desk, key } => world.keep(alloc, *desk, key),
        Event::Answer {
            desk,
            request,
            budget,
        } => world.answer(alloc, *desk, request, *budget),
    }
}

/// Takes the events in order, up to the first that is refused, whose place is given. The world is then the one that
/// the events before that place leave, and each answer in it is recorded as the list of events tells.
pub fn run(alloc: Global, world: &mut World, events: &[Event]) -> Result<(), (u32, StepFault)>
    requires few { length events.now < 2 ^ 32 }
    requires events { All IsEvent events.now }
    ensures world { ComesOf world.old (reverse (taken events.now result)) world.new }
    ensures stops { IfErr result (StopsAt world.new events.now) }
    ensures answers { (opening : Version) (count : ℕ) (past : List Happened) → ComesOf (opened opening count) past world.old → AreRecorded opening (reverse (taken events.now result) ++ past) world.new.answers }
{
    run_all(alloc, world, events)
}

/// The same, without what the answers record.
fn run_all(alloc: Global, world: &mut World, events: &[Event]) -> Result<(), (u32, StepFault)>
    requires few { length events.now < 2 ^ 32 }
    requires events { All IsEvent events.now }
    ensures world { ComesOf world.old (reverse (taken events.now result)) world.new }
    ensures stops { IfErr result (StopsAt world.new events.now) }
{
    let mut place = 0u32;
    for event in events {
        if let Err(fault) = step(alloc, world, event) {
            return Err((place, fault));
        }
        place += 1;
    }
    Ok(())
}
