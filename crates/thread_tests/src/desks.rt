//! Desks that search, learn of what was filed meanwhile, and search again.
ghost use Rattle.std.specs.Prelude.{◌≡◌, IfOk};
ghost use Rattle.fare_law.specs.FilingLimits.{IsAction};
ghost use Rattle.fare_versions.specs.Seen.{HasSeen};

use crate::books::{file, key_out, put_at};
use crate::cases::{Case, house, request_of};
use crate::counting::Counting;
use crate::filings::{LON, NYC, QX, fare_key};
use fare_law::{Action, Mem, Place, Priced, Request};
use fare_versions::{Clerk, FileFault, Watch};
use node_publish::NodeStore;
use search_core::SearchFault;
use search_desk::Desk;
use std::alloc::Global;
use std::sync::Wait;
use std::test::Fail;

/// A fare that the clerk files.
enum Offer {
    /// From London to New York at 20000.
    First,
    /// Another one there at 15000.
    Cheaper,
    /// From New York to London at 15000.
    Back,
    /// From Paris to Rome at 15000.
    Elsewhere,
}

/// What is done at a desk.
enum Step {
    /// The clerk files a fare, and the desk learns of it.
    File(Offer),
    /// The desk learns of all that was filed.
    Learn,
    /// It searches, and is to find this.
    Search(Found),
}

/// What is done at one desk and then at another of one house: its name, the case, the cells of their store, the steps of each, and
/// whether the first desk stays for the other's turn.
type Turns = (&'static str, Case, u32, [&'static [Step]; 2], bool);

/// The fare is put.
fn put_of(offer: &Offer) -> Action
    ensures { IsAction result }
{
    match offer {
        Offer::First => put_at(key_out(b'Y'), 20000),
        Offer::Cheaper => put_at(key_out(b'B'), 15000),
        Offer::Back => put_at(fare_key(QX, NYC, LON, b'Y'), 15000),
        Offer::Elsewhere => put_at(fare_key(QX, Place(*b"PAR"), Place(*b"ROM"), b'Y'), 15000),
    }
}

/// What a search found: the version, the prices of its tickets, three at most and 0 where there is none, and whether a node was
/// built for it.
pub type Found = (u32, [u64; 3], bool);

/// The price of the ticket at this place.
fn price(tickets: &[Priced], at: usize) -> u64 {
    tickets.get(at).map_or(0, |ticket| ticket.price)
}

/// The prices of three tickets at most, and 0 where there is none.
pub fn prices(tickets: &[Priced]) -> [u64; 3] {
    [price(tickets, 0), price(tickets, 1), price(tickets, 2)]
}

/// What a desk finds by this gate.
pub fn find(
    alloc: Global,
    desk: &mut Desk,
    store: &NodeStore,
    request: &Request,
    gate: &Counting,
) -> Result<Found, SearchFault>
    requires { desk.old.pass.cells ≡ store.now }
    ensures cells { desk.new.pass.cells ≡ desk.old.pass.cells }
    ensures house { desk.new.sight.house ≡ desk.old.sight.house }
{
    let before = gate.built();
    let answer = desk.search(alloc, store, request, 1000, gate)?;
    let is_built = gate.built() > before;
    Ok((answer.number, prices(answer.tickets.as_slice()), is_built))
}

/// The clerk files the fare, and the desk learns of it.
fn learn_of<R: Wait>(
    rt: &R,
    alloc: Global,
    clerk: &mut Clerk,
    desk: &mut Desk,
    offer: &Offer,
) -> Result<(), FileFault>
    requires { desk.old.sight.house ≡ clerk.old.house }
    ensures house { clerk.new.house ≡ clerk.old.house }
    ensures sight { desk.new.sight.house ≡ desk.old.sight.house }
    ensures pass { desk.new.pass ≡ desk.old.pass }
{
    let receipt = file(rt, alloc, clerk, put_of(offer))?;
    desk.learn(&receipt);
    Ok(())
}

/// Whether a desk finds at its turn what it is to find.
fn finds<R: Wait>(
    rt: &R,
    alloc: Global,
    clerk: &mut Clerk,
    desk: &mut Desk,
    store: &NodeStore,
    turn: (&Request, &Counting, &[Step]),
) -> Result<bool, Fail>
    requires cells { desk.old.pass.cells ≡ store.now }
    requires house { desk.old.sight.house ≡ clerk.old.house }
    ensures { clerk.new.house ≡ clerk.old.house }
{
    let (request, gate, steps) = turn;
    for step in steps {
        match step {
            Step::File(offer) => learn_of(rt, alloc, clerk, desk, offer)?,
            Step::Learn => desk.learn(&clerk.tell()),
            Step::Search(found) => {
                if find(alloc, desk, store, request, gate)? != *found {
                    return Ok(false);
                }
            }
        }
    }
    Ok(true)
}

/// A desk of the clerk's house with a pass of the store.
pub fn desk_of(clerk: &Clerk, watch: Watch, store: &NodeStore, alloc: Global) -> Result<Desk, Mem>
    requires { HasSeen clerk.now watch }
    ensures house { IfOk result (λ d. d.sight.house ≡ clerk.now.house) }
    ensures cells { IfOk result (λ d. d.pass.cells ≡ store.now) }
{
    let _clerk = clerk;
    Ok(Desk::new(watch, store.pass(alloc)?, 1))
}

/// The two desks of these watches.
fn desks_of(
    clerk: &Clerk,
    watches: (Watch, Watch),
    store: &NodeStore,
    alloc: Global,
) -> Result<(Desk, Desk), Mem>
    requires { HasSeen clerk.now watches.0 × HasSeen clerk.now watches.1 }
    ensures first { IfOk result (λ d. (d.0.sight.house ≡ clerk.now.house) × (d.0.pass.cells ≡ store.now)) }
    ensures second { IfOk result (λ d. (d.1.sight.house ≡ clerk.now.house) × (d.1.pass.cells ≡ store.now)) }
{
    let (one, other) = watches;
    let first = desk_of(clerk, one, store, alloc)?;
    let second = desk_of(clerk, other, store, alloc)?;
    Ok((first, second))
}

/// Whether each of the two desks, one after the other, finds what it is to find.
fn find_in_turn<R: Wait>(
    rt: &R,
    alloc: Global,
    clerk: &mut Clerk,
    watches: (Watch, Watch),
    store: &NodeStore,
    turns: &Turns,
) -> Result<bool, Fail>
    requires { HasSeen clerk.old watches.0 × HasSeen clerk.old watches.1 }
{
    let [one, other] = turns.3;
    let request = request_of(&turns.1);
    let gate = Counting::after(1);
    let (mut first, mut second) = desks_of(clerk, watches, store, alloc)?;
    let turn = (&request, &gate, one);
    let is_found = finds(rt, alloc, clerk, &mut first, store, turn)?;
    let _first = turns.4.then_some(first);
    let turn = (&request, &gate, other);
    Ok(finds(rt, alloc, clerk, &mut second, store, turn)? && is_found)
}

/// A store of so many cells, 1 to 65,536.
pub fn store_of(alloc: Global, cells: u32) -> Result<NodeStore, Fail> {
    if cells == 0 || cells > 65_536 {
        return Err(Fail::new("no such store"));
    }
    Ok(NodeStore::new(alloc, cells)?)
}

/// The same of two desks of a house of their own.
fn play<R: Wait>(rt: &R, alloc: Global, turns: &Turns) -> Result<bool, Fail> {
    let store = store_of(alloc, turns.2)?;
    let (mut clerk, one, other) = house(rt, alloc, &turns.1)?;
    let is_found = find_in_turn(rt, alloc, &mut clerk, (one, other), &store, turns);
    clerk.end(rt);
    is_found
}

const NONE: [u64; 3] = [0; 3];

/// The first fare, and the cheaper one before it.
const ONE: [u64; 3] = [20000, 0, 0];

const TWO: [u64; 3] = [15000, 20000, 0];

/// The tickets of the case of two carriers.
pub const THREE: [u64; 3] = [36000, 48000, 48000];

const STAYS: bool = true;

const GOES: bool = false;

const TURNS: [Turns; 5] = [
    // Each version has a sheet of its own, so each but the first builds a node, and the last search finds it.
    (
        "one desk",
        Case::NoFare,
        64,
        [
            &[
                Step::Search((0, NONE, false)),
                Step::File(Offer::First),
                Step::Search((1, ONE, true)),
                Step::File(Offer::Cheaper),
                Step::Search((2, TWO, true)),
                Step::Search((2, TWO, false)),
            ],
            &[],
        ],
        STAYS,
    ),
    (
        "another market's filing leaves the nodes as they are",
        Case::TwoCarriers,
        65_536,
        [
            &[
                Step::Search((1, THREE, true)),
                Step::File(Offer::Elsewhere),
                Step::Search((2, THREE, false)),
            ],
            &[],
        ],
        STAYS,
    ),
    // The second desk finds the node that the first one built. Then the one cell has a node of another version's sheet, so there is
    // no room for another and none is built.
    (
        "one cell and one key a version",
        Case::NoFare,
        1,
        [
            &[Step::File(Offer::First), Step::Search((1, ONE, true))],
            &[
                Step::Learn,
                Step::Search((1, ONE, false)),
                Step::File(Offer::Cheaper),
                Step::Search((2, TWO, false)),
            ],
        ],
        STAYS,
    ),
    (
        "one cell and many keys",
        Case::TwoCarriers,
        1,
        [
            &[Step::Search((1, THREE, true))],
            &[Step::Search((1, THREE, false))],
        ],
        STAYS,
    ),
    // No flight is of the carrier whose fare is filed.
    (
        "what a desk built that is gone",
        Case::TwoCarriers,
        65_536,
        [
            &[Step::File(Offer::Back), Step::Search((2, THREE, true))],
            &[Step::Learn, Step::Search((2, THREE, false))],
        ],
        GOES,
    ),
];

/// Which of these desks finds something else, if any does.
fn wrong<R: Wait>(rt: &R, alloc: Global, all: &[Turns]) -> Result<Option<&'static str>, Fail> {
    for turns in all {
        if !play(rt, alloc, turns)? {
            return Ok(Some(turns.0));
        }
    }
    Ok(None)
}

#[test]
fn searches_what_it_learnt(rt: HostRuntime) -> Result<(), Fail> {
    assert_eq!(rt; wrong(&rt, rt.alloc(), &TURNS)?, None);
    Ok(())
}
