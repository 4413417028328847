//! The tails of a slice by classes: those of a class end at one place, lead to one position, and depart last on one day.
ghost use Rattle.std.specs.Prelude.{◌≡◌, ◌↔◌, ◌≤◌, ◌<◌, IfOk, IsTrue, MatchOption, OnOk, Some, length, map, slice_get};
ghost use Rattle.fare_ends.specs.Ends.{IsRange, between};
ghost use Rattle.fare_ends.specs.Masks.{AreMasks};
ghost use Rattle.fare_law.specs.Lists.{Each, OnFirst};
ghost use Rattle.joint_paths.specs.declared.tail_classes.OrderedTail.{OrderedTail as OneOrdered};
ghost use Rattle.joint_paths.specs.declared.tail_classes.TailClass.{TailClass as OneClass};
ghost use Rattle.joint_paths.specs.Ordered.{AddsOrdered, AreClassesInOrder, AreEndsInOrder, AreMadeOf, AreOrderedTails, IsBeside, IsOrdered};
ghost use Rattle.joint_paths.specs.Tails.{AreTailClasses, IsOpen, IsShortPath};

use crate::marks::mark_of;
use crate::position_numbers::PositionNumbers;
use fare_ends::{Masks, TableCase, last_flight, same_after};
use fare_law::{Flight, Mem, Place};
use flight_paths::{Path, Position};
use std::alloc::Global;

/// A tail on which some class of seats is open.
#[derive(Clone, Copy)]
pub struct JoinTail {
    /// Where it stands among the tails of its slice.
    pub number: usize,
    /// The number of its first flight.
    pub first: u32,
    /// How many flights it has.
    pub count: u32,
    /// The classes of seats that are open in all of them.
    pub classes: u32,
    /// The mark of the places where they arrive.
    pub mark: u64,
}

/// A class of tails, and where they stand, by their first flights.
#[derive(Clone, Copy)]
pub struct TailClass {
    /// Where they lead, and the number of this position.
    pub after: Option<Position>,
    pub after_number: usize,
    pub end: Place,
    pub last: i32,
    pub from: usize,
    pub to: usize,
}

/// Where the classes stand that end at a place.
#[derive(Clone, Copy)]
pub struct TailEnd {
    pub place: Place,
    pub from: usize,
    pub to: usize,
}

/// The tails of a slice by classes, the classes by ends.
#[derive(Drop)]
pub struct TailClasses {
    pub tails: Vec<JoinTail>,
    pub classes: Vec<TailClass>,
    pub ends: Vec<TailEnd>,
}

/// What tails are put in order by: their ends and where they lead, then their last days and their first flights. As numbers,
/// since letters would be compared one by one.
#[derive(Clone, Copy, PartialEq, Eq, PartialOrd, Ord)]
struct TailOrder {
    leads: u64,
    flies: u64,
}

/// A tail with its class.
#[derive(Clone, Copy)]
pub struct OrderedTail {
    pub after: Option<Position>,
    pub after_number: usize,
    pub end: Place,
    pub last: i32,
    pub tail: JoinTail,
}

/// The classes of the tails of a slice.
pub fn classes_of_tails(
    case: &TableCase<'_>,
    masks: &mut Masks,
    positions: &mut PositionNumbers,
    paths: &[Path],
) -> Result<TailClasses, Mem>
    requires masks { AreMasks case.now.book.now case.now.request.now masks.old }
    requires paths { Each (IsShortPath case.now.book.now) paths.now }
    ensures masks { AreMasks case.now.book.now case.now.request.now masks.new }
    ensures classes { IfOk result (AreTailClasses case.now.book.now case.now.request.now paths.now) }
{
    let tails = ordered_tails(case, masks, positions, paths)?;
    classes_made(case.alloc, tails)
}

/// A path by its number.
#[derive(Clone, Copy)]
pub struct NumberedPath<'a> {
    pub number: usize,
    pub path: &'a Path,
}

/// The tails on which some class of seats is open.
fn ordered_tails(
    case: &TableCase<'_>,
    masks: &mut Masks,
    positions: &mut PositionNumbers,
    paths: &[Path],
) -> Result<Vec<OrderedTail>, Mem>
    requires masks { AreMasks case.now.book.now case.now.request.now masks.old }
    requires paths { Each (IsShortPath case.now.book.now) paths.now }
    ensures masks { AreMasks case.now.book.now case.now.request.now masks.new }
    ensures tails { IfOk result (λ tails. AreOrderedTails case.now.book.now case.now.request.now paths.now tails.items) }
{
    let mut tails = Vec::new(case.alloc);
    for number in 0..paths.len() {
        let tail = NumberedPath {
            number,
            path: &paths[number],
        };
        add_ordered(case, masks, positions, &tail, &mut tails)?;
    }
    Ok(tails)
}

/// Adds a tail, if some class of seats is open on it.
fn add_ordered(
    case: &TableCase<'_>,
    masks: &mut Masks,
    positions: &mut PositionNumbers,
    tail: &NumberedPath<'_>,
    tails: &mut Vec<OrderedTail>,
) -> Result<(), Mem>
    requires masks { AreMasks case.now.book.now case.now.request.now masks.old }
    requires path { IsShortPath case.now.book.now tail.now.path.now }
    ensures masks { AreMasks case.now.book.now case.now.request.now masks.new }
    ensures added { OnOk result (AddsOrdered case.now.book.now case.now.request.now tail.now tails.old.items tails.new.items) }
{
    let made = open_tail(case, masks, positions, tail)?;
    match made {
        Some(found) => {
            tails.push(found)?;
            Ok(())
        }
        None => Ok(()),
    }
}

/// A tail with its class. None only where no class of seats is open on it.
fn open_tail(
    case: &TableCase<'_>,
    masks: &mut Masks,
    positions: &mut PositionNumbers,
    tail: &NumberedPath<'_>,
) -> Result<Option<OrderedTail>, Mem>
    requires masks { AreMasks case.now.book.now case.now.request.now masks.old }
    requires path { IsShortPath case.now.book.now tail.now.path.now }
    ensures masks { AreMasks case.now.book.now case.now.request.now masks.new }
    ensures tail { IfOk result (λ found. MatchOption found (IsOpen case.now.book.now case.now.request.now tail.now.path.now → ⊥) (IsOrdered case.now.book.now case.now.request.now tail.now)) }
{
    let numbers = tail.path.flights.as_slice();
    let classes = masks.classes_of(case.book, case.request, numbers)?;
    if classes == 0 {
        return Ok(None);
    }
    let Some(last) = last_flight(case.book, numbers) else {
        return Ok(None);
    };
    let mark = mark_of(case, numbers);
    let found = tail_with(tail.number, numbers, classes, mark);
    let after_number = positions.number(&tail.path.after)?;
    Ok(Some(found.led(&tail.path.after, after_number, last)))
}

/// A tail of these flights, by its number, the classes of seats and the mark.
fn tail_with(number: usize, numbers: &[u32], classes: u32, mark: u64) -> JoinTail
    requires some { 1 ≤ length numbers.now }
    requires few { length numbers.now ≤ 3 }
    ensures number { result.number ≡ number }
    ensures first { OnFirst (λ n. n ≡ result.first) numbers.now }
    ensures count { result.count ≡ length numbers.now }
    ensures classes { result.classes ≡ classes }
    ensures mark { result.mark ≡ mark }
{
    JoinTail {
        number,
        first: numbers[0],
        count: numbers.len() as u32,
        classes,
        mark,
    }
}

impl JoinTail {
    /// The tail with where it leads and its last flight.
    fn led(self, after: &Option<Position>, after_number: usize, last: &Flight) -> OrderedTail
        ensures after { result.after ≡ after.now }
        ensures end { result.end ≡ last.now.to }
        ensures last { result.last ≡ last.now.day }
        ensures tail { result.tail ≡ self }
    {
        OrderedTail {
            after: *after,
            after_number,
            end: last.to,
            last: last.day,
            tail: self,
        }
    }
}

/// The classes of some tails.
fn classes_made(alloc: Global, tails: Vec<OrderedTail>) -> Result<TailClasses, Mem>
    ensures { IfOk result (AreMadeOf tails.items) }
{
    let mut sorted = tails;
    sorted.sort_unstable_by_key(order_of);
    let ordered = sorted.as_slice();
    let classes = classes_in_order(alloc, ordered)?;
    let ends = ends_in_order(alloc, classes.as_slice())?;
    let tails = tails_of(alloc, ordered)?;
    Ok(TailClasses {
        tails,
        classes,
        ends,
    })
}

fn order_of(tail: &OrderedTail) -> TailOrder {
    let [a, b, c] = tail.end.0;
    let [_, _, _, d, e, f, g, h] = tail.after_number.to_be_bytes();
    let [i, j, k, l] = tail.last.to_be_bytes();
    let [m, n, o, p] = tail.tail.first.to_be_bytes();
    TailOrder {
        leads: u64::from_be_bytes([a, b, c, d, e, f, g, h]),
        flies: u64::from_be_bytes([i, j, k, l, m, n, o, p]),
    }
}

/// The classes of tails that stand in order.
fn classes_in_order(alloc: Global, ordered: &[OrderedTail]) -> Result<Vec<TailClass>, Mem>
    ensures { IfOk result (λ classes. AreClassesInOrder ordered.now classes.items) }
{
    let mut classes = Vec::new(alloc);
    let mut from = 0;
    while from < ordered.len() {
        let to = past_class(ordered, from);
        let class = ordered[from].class(from, to);
        classes.push(class)?;
        from = to;
    }
    Ok(classes)
}

impl OrderedTail {
    /// The class of a tail, which stands from one place up to another.
    fn class(&self, from: usize, to: usize) -> TailClass
        ensures after { result.after ≡ self.now.after }
        ensures end { result.end ≡ self.now.end }
        ensures last { result.last ≡ self.now.last }
        ensures from { result.from ≡ from }
        ensures to { result.to ≡ to }
    {
        TailClass {
            after: self.after,
            after_number: self.after_number,
            end: self.end,
            last: self.last,
            from,
            to,
        }
    }
}

/// Where the class ends that begins there.
fn past_class(ordered: &[OrderedTail], from: usize) -> usize
    requires { from < length ordered.now }
    ensures past { from < result }
    ensures within { result ≤ length ordered.now }
    ensures beside { (one : OneOrdered) → slice_get ordered.now from ≡ Some one → Each (IsBeside one) (between ordered.now from result) }
{
    let one = &ordered[from];
    for at in from + 1..ordered.len() {
        if !is_beside(one, &ordered[at]) {
            return at;
        }
    }
    ordered.len()
}

/// Whether a tail is of the class of another.
fn is_beside(one: &OrderedTail, other: &OrderedTail) -> bool
    ensures { IsTrue result ↔ IsBeside one.now other.now }
{
    one.end.is(other.end) && one.last == other.last && same_after(&one.after, &other.after)
}

/// Where the classes that stand in order end.
fn ends_in_order(alloc: Global, classes: &[TailClass]) -> Result<Vec<TailEnd>, Mem>
    ensures { IfOk result (λ ends. AreEndsInOrder classes.now ends.items) }
{
    let mut ends = Vec::new(alloc);
    let mut from = 0;
    while from < classes.len() {
        let to = past_end(classes, from);
        ends.push(TailEnd {
            place: classes[from].end,
            from,
            to,
        })?;
        from = to;
    }
    Ok(ends)
}

/// Where the classes end that end at the place of that which stands there.
fn past_end(classes: &[TailClass], from: usize) -> usize
    requires { from < length classes.now }
    ensures past { from < result }
    ensures within { result ≤ length classes.now }
    ensures beside { (one : OneClass) → slice_get classes.now from ≡ Some one → Each (λ (c : OneClass). c.end ≡ one.end) (between classes.now from result) }
{
    let place = classes[from].end;
    for at in from + 1..classes.len() {
        if !classes[at].end.is(place) {
            return at;
        }
    }
    classes.len()
}

/// The tails in their order.
fn tails_of(alloc: Global, ordered: &[OrderedTail]) -> Result<Vec<JoinTail>, Mem>
    ensures { IfOk result (λ tails. tails.items ≡ map (λ (o : OneOrdered). o.tail) ordered.now) }
{
    let mut tails = Vec::with_capacity(alloc, ordered.len())?;
    for one in ordered {
        tails.push(one.tail)?;
    }
    Ok(tails)
}

impl TailClasses {
    /// The tails of a class.
    pub fn tails(&self, class: &TailClass) -> &[JoinTail]
        requires { IsRange self.now.tails.items class.now.from class.now.to }
        ensures { result.now ≡ between self.now.tails.items class.now.from class.now.to }
    {
        &self.tails[class.from..class.to]
    }
}
