//! A desk that searches while the clerk files in the searched market.
ghost use Rattle.std.specs.Prelude.{◌≡◌, IfOk};
ghost use Rattle.fare_versions.specs.Seen.{HasSeen};

use crate::books::file;
use crate::cases::{Case, house, request_of};
use crate::counting::Counting;
use crate::desks::{Found, THREE, desk_of, find, store_of};
use crate::filings::{LON, NYC, Y, fare_key, put};
use crate::two_carriers::EX;
use fare_law::FareKind;
use fare_versions::{Clerk, FileFault, Receipt, Watch};
use node_publish::NodeStore;
use search_core::SearchFault;
use search_desk::Desk;
use std::alloc::Global;
use std::sync::Wait;
use std::test::Fail;
use std::thread::{Threads, join};

/// The desk, and what it found.
fn searched(
    alloc: Global,
    desk: Desk,
    store: &NodeStore,
    gate: &Counting,
) -> (Desk, Result<Found, SearchFault>)
    requires { desk.pass.cells ≡ store.now }
    ensures cells { result.0.pass.cells ≡ desk.pass.cells }
    ensures house { result.0.sight.house ≡ desk.sight.house }
{
    let mut desk = desk;
    let request = request_of(&Case::TwoCarriers);
    let found = find(alloc, &mut desk, store, &request, gate);
    (desk, found)
}

/// A fare in the searched market is filed once a desk builds.
fn filed<R: Wait>(
    rt: &R,
    alloc: Global,
    clerk: &mut Clerk,
    gate: &Counting,
) -> Result<Receipt, FileFault>
    ensures { IfOk result (λ r. r.house ≡ clerk.old.house) }
{
    gate.wait_for_building();
    let cheap = put(fare_key(EX, LON, NYC, b'C'), Y, FareKind::R, 10000, 0);
    let receipt = file(rt, alloc, clerk, cheap);
    gate.tell_filed();
    receipt
}

/// What a desk finds while the clerk files, the numbers of the receipt and of the version that it sees once it has learnt that, and
/// what it finds then.
fn search_meanwhile<R: Threads + Wait + Sync>(
    rt: &R,
    alloc: Global,
    clerk: &mut Clerk,
    desk: Desk,
    store: &NodeStore,
    gate: &Counting,
) -> Result<(Found, [u32; 2], Found), Fail>
    requires cells { desk.pass.cells ≡ store.now }
    requires house { desk.sight.house ≡ clerk.old.house }
{
    let ((mut desk, found), receipt) = join(
        rt,
        move || -> (Desk, Result<Found, SearchFault>)
            requires { desk.pass.cells ≡ store.now }
            ensures { (result.0.pass.cells ≡ store.entry.now) × (result.0.sight.house ≡ desk.sight.house) }
        { searched(alloc, desk, store, gate) },
        move || -> Result<Receipt, FileFault>
            ensures { IfOk result (λ r. r.house ≡ clerk.entry.now.house) }
        { filed(rt, alloc, clerk, gate) },
    );
    let (learnt, next) = search_after(alloc, &mut desk, receipt?, store, gate)?;
    Ok((found?, learnt, next))
}

/// The numbers of the receipt and of the version that a desk sees once it has learnt that, and what it finds then.
fn search_after(
    alloc: Global,
    desk: &mut Desk,
    receipt: Receipt,
    store: &NodeStore,
    gate: &Counting,
) -> Result<([u32; 2], Found), SearchFault>
    requires cells { desk.old.pass.cells ≡ store.now }
    requires house { desk.old.sight.house ≡ receipt.house }
{
    desk.learn(&receipt);
    let learnt = [receipt.number(), desk.look()?];
    let next = find(alloc, desk, store, &request_of(&Case::TwoCarriers), gate)?;
    Ok((learnt, next))
}

/// The same by a desk of the clerk's house.
fn by_one_desk<R: Threads + Wait + Sync>(
    rt: &R,
    alloc: Global,
    clerk: &mut Clerk,
    watch: Watch,
    store: &NodeStore,
    gate: &Counting,
) -> Result<(Found, [u32; 2], Found), Fail>
    requires { HasSeen clerk.old watch }
{
    let desk = desk_of(clerk, watch, store, alloc)?;
    search_meanwhile(rt, alloc, clerk, desk, store, gate)
}

/// The same in a house of its own, and how often one was held for too long.
fn play_meanwhile<R: Threads + Wait + Sync>(
    rt: &R,
    alloc: Global,
) -> Result<((Found, [u32; 2], Found), u64), Fail> {
    let gate = Counting::after(0);
    let store = store_of(alloc, 64)?;
    let (mut clerk, watch, _other) = house(rt, alloc, &Case::TwoCarriers)?;
    let found = by_one_desk(rt, alloc, &mut clerk, watch, &store, &gate);
    clerk.end(rt);
    Ok((found?, gate.given_up()))
}

/// A fare of 10000 there and back is filed while a desk builds: its answer is that of the version that it had looked at, and the
/// next one has the fare, twice with half of the one of 36000.
#[test]
fn searches_the_version_that_it_saw(rt: HostRuntime) -> Result<(), Fail> {
    let found = play_meanwhile(&rt, rt.alloc())?;
    let expected = ((1, THREE, true), [2, 2], (2, [10000, 23000, 23000], true));
    assert!(rt; found == (expected, 0));
    Ok(())
}
