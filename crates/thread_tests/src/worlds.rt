//! Events on a world.
ghost use Rattle.std.specs.Prelude.{All, IfOk};
ghost use Rattle.fare_law.specs.FilingLimits.{IsAction};
ghost use Rattle.run_core.specs.Worlds.{IsEvent};

use crate::filings::{LON, NO_FARE, NYC, QX, Y, fare_key, filing_of, put};
use crate::keys::key;
use crate::round_trip::{book, request};
use fare_law::{Action, FareKind, Mem, Why};
use run_core::{Event, Outcome, Recorded, StepFault, World, run};
use std::alloc::Global;
use std::test::Fail;

/// An event of the tests.
enum Step {
    /// The fare QX LON NYC Y is filed at 15000.
    FileCheaper,
    /// A fare is dropped that isn't there.
    FileNothing,
    /// A desk looks at the version.
    Look(u32),
    /// A desk keeps the offers of the one key.
    Keep(u32),
    /// A desk reads the offers of the one key.
    Fetch(u32),
    /// A desk answers the request for a party of so many, with this budget.
    Answer(u32, u8, u32),
}

/// What comes of some events.
type Ran = Result<(), (u32, StepFault)>;

/// The desk of an answer, its version, and the least price, or `None` for too large.
type Told = (u32, u32, Option<u64>);

/// How many answers a world has recorded, and what the first and the last tell.
type AllTold = (usize, Option<Told>, Option<Told>);

/// A name, of how many desks a world is, lists of events with what comes of each, and what it has recorded then.
type Play = (
    &'static str,
    u32,
    &'static [(&'static [Step], Ran)],
    AllTold,
);

fn file(alloc: Global, action: Action) -> Result<Event, Mem>
    requires { IsAction action }
    ensures { IfOk result IsEvent }
{
    Ok(Event::File {
        filing: filing_of(alloc, action)?,
    })
}

fn event_of(alloc: Global, step: &Step) -> Result<Event, Mem>
    ensures { IfOk result IsEvent }
{
    match step {
        Step::FileCheaper => file(
            alloc,
            put(fare_key(QX, LON, NYC, b'Y'), Y, FareKind::O, 15000, 0),
        ),
        Step::FileNothing => file(alloc, Action::DropFare(fare_key(QX, NYC, LON, b'B'))),
        Step::Look(desk) => Ok(Event::Look { desk: *desk }),
        Step::Keep(desk) => Ok(Event::Keep {
            desk: *desk,
            key: key(alloc)?,
        }),
        Step::Fetch(desk) => Ok(Event::Fetch {
            desk: *desk,
            key: key(alloc)?,
        }),
        Step::Answer(desk, party, budget) => Ok(Event::Answer {
            desk: *desk,
            request: request(*party),
            budget: *budget,
        }),
    }
}

fn events_of(alloc: Global, steps: &[Step]) -> Result<Vec<Event>, Mem>
    ensures { IfOk result (λ events. All IsEvent events.items) }
{
    let mut events = Vec::new(alloc);
    for step in steps {
        events.push(event_of(alloc, step)?)?;
    }
    Ok(events)
}

/// What comes of at most eight steps, one after the other.
fn follow(alloc: Global, world: &mut World, steps: &[Step]) -> Result<Ran, Mem> {
    let events = events_of(alloc, steps)?;
    let events = events.as_slice();
    if events.len() > 8 {
        return Err(Mem);
    }
    Ok(run(alloc, world, events))
}

fn told(recorded: &Recorded) -> Told {
    let price = match &recorded.outcome {
        Outcome::Tickets(tickets) => tickets.as_slice().first().map(|ticket| ticket.price),
        Outcome::TooLarge => None,
    };
    (recorded.desk, recorded.version, price)
}

fn all_told(world: &World) -> AllTold {
    let answers = world.answers();
    (
        answers.len(),
        answers.first().map(told),
        answers.last().map(told),
    )
}

/// Whether all comes in a world as it is to come.
fn goes_as(alloc: Global, world: &mut World, play: &Play) -> Result<bool, Mem> {
    for part in play.2 {
        if follow(alloc, world, part.0)? != part.1 {
            return Ok(false);
        }
    }
    Ok(all_told(world) == play.3)
}

/// The same in a world of its own, over the case of a round trip.
fn is_played(alloc: Global, play: &Play) -> Result<bool, Fail> {
    let mut world = World::new(alloc, book(alloc)?, play.1)?;
    Ok(goes_as(alloc, &mut world, play)?)
}

const PLAYS: [Play; 3] = [
    // Two desks look, one before a filing and one after it, the one keeps the offers of a key, the other reads them, and both answer:
    // the one from the older version, the other from the newer.
    (
        "a filing between the looks of two desks",
        2,
        &[(
            &[
                Step::Look(0),
                Step::FileCheaper,
                Step::Look(1),
                Step::Keep(0),
                Step::Fetch(1),
                Step::Answer(0, 1, 3),
                Step::Answer(1, 1, 3),
            ],
            Ok(()),
        )],
        (2, Some((0, 1, Some(40000))), Some((1, 2, Some(30000)))),
    ),
    // A filing is taken or leaves the version as it was, and so does a party of none with what the desk has looked at. Three
    // residuals are over a budget of none.
    (
        "a filing and a request that are refused",
        1,
        &[
            (
                &[Step::FileCheaper, Step::Look(0), Step::Answer(0, 1, 3)],
                Ok(()),
            ),
            (
                &[Step::FileNothing],
                Err((0, StepFault::BadFiling(NO_FARE))),
            ),
            (
                &[Step::Look(0), Step::Answer(0, 0, 3)],
                Err((1, StepFault::BadSearch(Why::Party))),
            ),
            (&[Step::Answer(0, 1, 0)], Ok(())),
        ],
        (2, Some((0, 2, Some(30000))), Some((0, 2, None))),
    ),
    // An answer before any look, a look of a desk that isn't there, a look and two answers at a time, and a keep after them: refused
    // are a desk that isn't there, and one that has not looked since its last answer, whose answer stays.
    (
        "desks out of turn",
        1,
        &[
            (&[Step::Answer(0, 1, 3)], Err((0, StepFault::NotNow))),
            (&[Step::Look(1)], Err((0, StepFault::NoDesk))),
            (
                &[Step::Look(0), Step::Answer(0, 1, 3), Step::Answer(0, 1, 3)],
                Err((2, StepFault::NotNow)),
            ),
            (&[Step::Keep(0)], Err((0, StepFault::NotNow))),
        ],
        (1, Some((0, 1, Some(40000))), Some((0, 1, Some(40000)))),
    ),
];

/// In which world something else comes, if it does in one.
fn wrong(alloc: Global, plays: &[Play]) -> Result<Option<&'static str>, Fail> {
    for play in plays {
        if !is_played(alloc, play)? {
            return Ok(Some(play.0));
        }
    }
    Ok(None)
}

#[test]
fn takes_events_or_leaves_the_world(rt: HostRuntime) -> Result<(), Fail> {
    assert_eq!(rt; wrong(rt.alloc(), &PLAYS)?, None);
    Ok(())
}
