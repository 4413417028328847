//! Passes of one board.
ghost use Rattle.std.specs.Prelude.{◌≡◌, ◌≤◌, None, IfOk, IsSome, OnSome};

use crate::cases::{Case, book_of, request_of};
use crate::counting::Counting;
use crate::desks::{THREE, prices};
use fare_law::{NoGate, Request, Why};
use search_core::{Answer, SearchFault};
use shared_board::{Board, BoardPass};
use std::alloc::Global;
use std::sync::Arc;
use std::test::Fail;
use std::thread::{Threads, map_vec};

/// The board of the case for a party of so many, with its number 7, and a pass.
fn open(
    alloc: Global,
    case: &Case,
    party: u8,
    budget: u32,
    slots: u32,
) -> Result<(Board, BoardPass), Fail>
    requires budget { (1 ≤ budget) × (budget ≤ 1000000) }
    requires slots { (1 ≤ slots) × (slots ≤ 65536) }
    ensures slots { IfOk result (λ r. r.0.slots.board.slots ≡ slots) }
    ensures pass { IfOk result (λ r. (r.1.of ≡ r.0.slots) × (r.1.held ≡ None)) }
{
    let book = Arc::new(alloc, book_of(alloc, case)?)?;
    let request = Request {
        party,
        ..request_of(case)
    };
    Ok(Board::open(alloc, 7, book, request, budget, slots)?)
}

/// Whether the answer has the tickets and the residuals of the case of two carriers.
fn is_best(answer: &Answer) -> bool {
    let tickets = answer.tickets.as_slice();
    answer.number == 1
        && answer.certificate.rows.len() == 6
        && tickets.len() == 3
        && prices(tickets) == THREE
}

/// How many nodes a pass built for its answer, where the answer is right.
fn built_for_best(alloc: Global, board: &Board, pass: &mut BoardPass) -> Option<u64>
    requires { (pass.old.of ≡ board.now.slots) × (pass.old.held ≡ None) }
    ensures { pass.new ≡ pass.old }
{
    let gate = Counting::after(1);
    let answer = pass.answer(alloc, board, &gate).ok()?;
    if is_best(&answer) {
        Some(gate.built())
    } else {
        None
    }
}

/// How many nodes two passes built: each in turn for the work, and then each for its answer, where it is right.
fn built_in_turn(
    alloc: Global,
    board: &Board,
    first: &mut BoardPass,
    second: &mut BoardPass,
) -> Option<[u64; 4]>
    requires first { (first.old.of ≡ board.now.slots) × (first.old.held ≡ None) }
    requires second { (second.old.of ≡ board.now.slots) × (second.old.held ≡ None) }
    ensures first { first.new ≡ first.old }
    ensures second { second.new ≡ second.old }
{
    let made = first.work(alloc, board).ok()?;
    let again = second.work(alloc, board).ok()?;
    let one = built_for_best(alloc, board, first)?;
    let other = built_for_best(alloc, board, second)?;
    Some([u64::from(made), u64::from(again), one, other])
}

/// The numbers that two passes tell, and that of the first once the second has joined it.
fn numbers(board: &Board, first: &mut BoardPass, second: BoardPass) -> [u64; 3]
    requires first { (first.old.of ≡ board.now.slots) × (first.old.held ≡ None) }
    requires second { (second.of ≡ board.now.slots) × (second.held ≡ None) }
{
    let mut second = second;
    let one = first.number(board);
    let other = second.number(board);
    first.join(board, second);
    [one, other, first.number(board)]
}

/// How many nodes two passes of one board built, and the numbers that they tell.
fn share(alloc: Global) -> Result<(Option<[u64; 4]>, [u64; 3]), Fail> {
    let (board, mut first) = open(alloc, &Case::TwoCarriers, 2, 1_000_000, 1024)?;
    let mut second = first.split(&board)?;
    let built = built_in_turn(alloc, &board, &mut first, &mut second);
    Ok((built, numbers(&board, &mut first, second)))
}

/// Whether the first pass alone built.
fn is_first_alone(built: Option<[u64; 4]>) -> bool {
    let Some(counts) = built else {
        return false;
    };
    let [made, again, second, third] = counts;
    made > 0 && again == 0 && second == 0 && third == 0
}

/// What the first pass built, the second finds; neither builds anything for its answer.
#[test]
fn shares_nodes(rt: HostRuntime) -> Result<(), Fail> {
    let (built, numbers) = share(rt.alloc())?;
    assert!(rt; numbers == [7, 7, 7]);
    assert!(rt; is_first_alone(built));
    Ok(())
}

/// How many nodes a pass builds for the work, where it finds none to hold before and holds one after it.
fn work_and_hold(alloc: Global, board: &Board, pass: &mut BoardPass) -> Option<u32>
    requires slots { board.now.slots.board.slots ≡ 1 }
    requires pass { (pass.old.of ≡ board.now.slots) × (pass.old.held ≡ None) }
    ensures of { OnSome result (pass.new.of ≡ board.now.slots) }
    ensures held { OnSome result (IsSome pass.new.held) }
{
    if pass.hold(board, 0) {
        return None;
    }
    let worked = pass.work(alloc, board).ok()?;
    if pass.hold(board, 0) {
        Some(worked)
    } else {
        None
    }
}

/// How many nodes the first pass built for the work; how many the second for its answer while the first has the one slot out, which it
/// can't hold then, and how many once it is put back; and whether the second can hold it at last.
fn beside_a_held_node(
    alloc: Global,
    board: &Board,
    first: &mut BoardPass,
    second: &mut BoardPass,
) -> Option<(u32, u64, u64, bool)>
    requires slots { board.now.slots.board.slots ≡ 1 }
    requires first { (first.old.of ≡ board.now.slots) × (first.old.held ≡ None) }
    requires second { (second.old.of ≡ board.now.slots) × (second.old.held ≡ None) }
{
    let worked = work_and_hold(alloc, board, first)?;
    let built = built_for_best(alloc, board, second)?;
    if second.hold(board, 0) {
        return None;
    }
    first.release(board);
    let found = built_for_best(alloc, board, second)?;
    Some((worked, built, found, second.hold(board, 0)))
}

/// The same for a board of its own.
fn hold_out(alloc: Global) -> Result<Option<(u32, u64, u64, bool)>, Fail> {
    let (board, mut first) = open(alloc, &Case::TwoCarriers, 2, 1_000_000, 1)?;
    let mut second = first.split(&board)?;
    Ok(beside_a_held_node(alloc, &board, &mut first, &mut second))
}

/// Whether what a held node spares is built where it is held by another.
fn is_built_twice(told: Option<(u32, u64, u64, bool)>) -> bool {
    match told {
        Some((worked, built, found, same)) => worked > 0 && built > found && same,
        None => false,
    }
}

/// While a pass has the one slot out, another finds nothing there, builds for itself what it would have found, and answers the same.
#[test]
fn answers_without_a_held_node(rt: HostRuntime) -> Result<(), Fail> {
    let told = hold_out(rt.alloc())?;
    assert!(rt; is_built_twice(told));
    Ok(())
}

/// The fault of an answer of a board.
fn fault(alloc: Global, board: &Board, pass: &mut BoardPass) -> Option<SearchFault>
    requires { (pass.old.of ≡ board.now.slots) × (pass.old.held ≡ None) }
    ensures { pass.new ≡ pass.old }
{
    pass.answer(alloc, board, &NoGate).err()
}

/// The fault of the answer for a party of so many, and how many nodes are built for the work.
fn refused(alloc: Global, party: u8, budget: u32) -> Result<(Option<SearchFault>, u32), Fail>
    requires { (1 ≤ budget) × (budget ≤ 1000000) }
{
    let (board, mut pass) = open(alloc, &Case::RoundTrip, party, budget, 64)?;
    let fault = fault(alloc, &board, &mut pass);
    Ok((fault, pass.work(alloc, &board)?))
}

/// Three residuals are over a budget of two. A party of none is no request, for which nothing is built.
#[test]
fn refuses_what_is_too_large_and_a_party_of_none(rt: HostRuntime) -> Result<(), Fail> {
    let (large, _) = refused(rt.alloc(), 1, 2)?;
    assert!(rt; large == Some(SearchFault::TooLarge));
    let none = refused(rt.alloc(), 0, 3)?;
    assert!(rt; none == (Some(SearchFault::BadRequest(Why::Party)), 0));
    Ok(())
}

/// A pass that works and answers in a thread of its own.
#[derive(Drop)]
struct Worker<'a> {
    board: &'a Board,
    pass: BoardPass,
    ghost own: { (pass.of ≡ board.now.slots) × (pass.held ≡ None) },
}

/// How many nodes the worker built for its work, where it then answers right.
fn worked(alloc: Global, worker: Worker) -> Option<u32> {
    let Worker { board, pass } = worker;
    let mut pass = pass;
    let built = pass.work(alloc, board).ok()?;
    built_for_best(alloc, board, &mut pass)?;
    Some(built)
}

/// All of them together, where each is there.
fn sum(counts: &[Option<u32>]) -> Option<u64> {
    let mut all: u64 = 0;
    for count in counts {
        all = all.saturating_add(u64::from((*count)?));
    }
    Some(all)
}

/// How many nodes so many passes built that worked and answered at once, all of them together.
fn built_together<R: Threads + Sync>(
    rt: &R,
    alloc: Global,
    board: &Board,
    pass: &mut BoardPass,
    count: u32,
) -> Result<Option<u64>, Fail>
    requires { (pass.old.of ≡ board.now.slots) × (pass.old.held ≡ None) }
    ensures { pass.new ≡ pass.old }
{
    let mut workers = Vec::new(alloc);
    for _ in 0..count {
        let pass = pass.split(board)?;
        workers.push(Worker { board, pass })?;
    }
    let counts = map_vec(rt, workers, &|worker: Worker| worked(alloc, worker))?;
    Ok(sum(counts.as_slice()))
}

/// Whether so many passes that work and answer at once each answer right, whether one of them at least built all that is needed, and
/// whether one more finds it all.
fn share_at_once<R: Threads + Sync>(
    rt: &R,
    alloc: Global,
    count: u32,
    needed: u64,
) -> Result<bool, Fail> {
    let (board, mut pass) = open(alloc, &Case::TwoCarriers, 2, 1_000_000, 1024)?;
    let built = built_together(rt, alloc, &board, &mut pass, count)?;
    let last = built_for_best(alloc, &board, &mut pass);
    Ok(matches!((built, last), (Some(built), Some(0)) if built >= needed))
}

/// Two and four passes work and answer at once: each answers right, all that a pass needs was built by one of them at least, and
/// one more finds it all.
#[test]
fn answers_from_several_threads(rt: HostRuntime) -> Result<(), Fail> {
    let (built, _numbers) = share(rt.alloc())?;
    let Some(counts) = built else {
        return Err(Fail::new("another answer"));
    };
    let [needed, _, _, _] = counts;
    assert!(rt; share_at_once(&rt, rt.alloc(), 2, needed)?);
    assert!(rt; share_at_once(&rt, rt.alloc(), 4, needed)?);
    Ok(())
}
