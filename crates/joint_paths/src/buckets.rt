//! Buckets of heads that cross: those of one carrier and one first day. Which of them fit before a tail.
ghost use Rattle.std.specs.Prelude.{◌≡◌, ◌+◌, ◌≤◌, ◌<◌, ◌-◌, ◌↔◌, ◌≢◌, ◌^◌, IsTrue, List as Items, length, slice_get, Some, suc, take, false, ℕ};
ghost use Rattle.fare_law.specs.declared.flights.Flight.{Flight as DatedFlight};
ghost use Rattle.fare_ends.specs.Legs.{AreAmong};
ghost use Rattle.fare_law.specs.Journey.{calls};
ghost use Rattle.fare_law.specs.Lists.{Each, IsIn};
ghost use Rattle.fare_law.specs.Parts.{Numbers};
ghost use Rattle.flight_paths.specs.declared.positions.Path.{Path as PathData};
ghost use Rattle.flight_paths.specs.Heads.{AreTails};
ghost use Rattle.flight_paths.specs.Ways.{arrivals_of};
ghost use Rattle.joint_paths.specs.declared.crossing_heads.CrossingHead.{CrossingHead as OneHead};
ghost use Rattle.joint_paths.specs.declared.tail_classes.JoinTail.{JoinTail as OneTail};
ghost use Rattle.joint_paths.specs.Heads.{FollowsOn, HasOpen, HeadFlies, IsBucket, IsHeadOf, IsReach};
ghost use Rattle.joint_paths.specs.Tails.{IsJoinTail};

use crate::crossing_heads::CrossingHead;
use crate::marks::bit_of;
use crate::tail_classes::JoinTail;
use fare_ends::TableCase;
use fare_law::{Carrier, MOST_FLIGHTS_OF_A_COMPONENT, Place};
use flight_paths::{Path, Position};

/// Where the heads of so many flights at most end, and the first flight that may be next after one of them.
#[derive(Clone, Copy)]
pub struct Reach {
    pub end: usize,
    pub low: u32,
}

/// Heads of one carrier and first day, by how many flights they have and then by the first flight that may be next.
#[derive(Clone, Copy)]
pub struct Bucket<'a> {
    pub case: &'a TableCase<'a>,
    /// The position from which they lead.
    pub at: &'a Position,
    /// The tails of the next slice.
    pub paths: &'a [Path],
    /// Their carrier, and the day of their first flights.
    pub carrier: Carrier,
    pub first: i32,
    pub heads: &'a [CrossingHead],
    /// The mark of the place where they begin.
    pub mark: u64,
    /// The classes of seats that are open on some of them.
    pub classes: u32,
    /// Those of one flight, of at most two, of at most three.
    pub one: Reach,
    pub two: Reach,
    pub three: Reach,
}

/// How many flights a head may have at most before a tail.
pub fn room_before(tail: &JoinTail) -> usize
    ensures { result ≡ MOST_FLIGHTS_OF_A_COMPONENT - tail.now.count }
{
    MOST_FLIGHTS_OF_A_COMPONENT.saturating_sub(tail.count as usize)
}

impl<'a> Bucket<'a> {
    /// The bucket of some heads that are like one of them.
    pub fn of(
        case: &'a TableCase<'a>,
        at: &'a Position,
        paths: &'a [Path],
        like: &CrossingHead,
        heads: &'a [CrossingHead],
    ) -> Bucket<'a>
        requires tails { AreTails case.now.book.now case.now.request.now.slices (suc at.now.slice) paths.now }
        requires heads { Each (IsHeadOf case.now.book.now case.now.request.now at.now like.now.carrier like.now.first) heads.now }
        ensures bucket { IsBucket result }
        ensures case { result.case.now ≡ case.now }
        ensures at { result.at.now ≡ at.now }
        ensures paths { result.paths.now ≡ paths.now }
        ensures carrier { result.carrier ≡ like.now.carrier }
        ensures first { result.first ≡ like.now.first }
        ensures heads { result.heads.now ≡ heads.now }
    {
        Bucket {
            case,
            at,
            paths,
            carrier: like.carrier,
            first: like.first,
            heads,
            mark: bit_of(at.place),
            classes: union_of(heads),
            one: reach_of(heads, 1),
            two: reach_of(heads, 2),
            three: reach_of(heads, 3),
        }
    }

    /// Those of at most so many flights.
    pub fn reach(&self, count: usize) -> Reach
        requires { IsBucket self.now }
        ensures end { result.end ≤ length self.now.heads.now }
        ensures reach { (n : ℕ) (h : OneHead) → slice_get self.now.heads.now n ≡ Some h → 1 ≤ h.count → h.count ≤ count → (n < result.end) × (result.low ≤ h.lo) }
    {
        match count {
            0 => Reach {
                end: 0,
                low: u32::MAX,
            },
            1 => self.one,
            2 => self.two,
            _ => self.three,
        }
    }

    /// Classes of seats of which each that is open on a tail and on a head that fits before it is one.
    pub fn classes_before(&self, tail: &JoinTail) -> u32
        requires bucket { IsBucket self.now }
        requires tail { IsJoinTail self.now.case.now.book.now self.now.case.now.request.now self.now.paths.now tail.now }
        ensures { HasOpen self.now tail.now result }
    {
        let reach = self.reach(room_before(tail));
        if tail.first < reach.low || reach.end == 0 {
            return 0;
        }
        let classes = self.classes & tail.classes;
        if classes == 0 || self.calls_here(tail) {
            return 0;
        }
        classes
    }

    /// Whether a head fits before a tail.
    pub fn fits(&self, head: &CrossingHead, tail: &JoinTail) -> bool
        requires bucket { IsBucket self.now }
        requires head { IsIn head.now self.now.heads.now }
        requires tail { IsJoinTail self.now.case.now.book.now self.now.case.now.request.now self.now.paths.now tail.now }
        ensures { IsTrue result ↔ FollowsOn self.now head.now tail.now }
    {
        if head.count as usize > room_before(tail) {
            return false;
        }
        if tail.first < head.lo || head.hi <= tail.first {
            return false;
        }
        if head.mark & tail.mark == 0 {
            return true;
        }
        self.is_apart(head, tail)
    }

    /// How many of the first of some tails begin before any head may go on.
    pub fn before_all(&self, tails: &[JoinTail]) -> usize
        requires bucket { IsBucket self.now }
        requires tails { Each (IsJoinTail self.now.case.now.book.now self.now.case.now.request.now self.now.paths.now) tails.now }
        ensures within { result ≤ length tails.now }
        ensures before { (t : OneTail) → IsIn t (take result tails.now) → (h : OneHead) → IsIn h self.now.heads.now → FollowsOn self.now h t → ⊥ }
    {
        for at in 0..tails.len() {
            if tails[at].first >= self.three.low {
                return at;
            }
        }
        tails.len()
    }

    /// Whether a tail calls at the place where the heads begin.
    fn calls_here(&self, tail: &JoinTail) -> bool
        requires bucket { IsBucket self.now }
        requires tail { IsJoinTail self.now.case.now.book.now self.now.case.now.request.now self.now.paths.now tail.now }
        ensures { (path : PathData) → slice_get self.now.paths.now tail.now.number ≡ Some path → (fs : Items DatedFlight) → Numbers self.now.case.now.book.now path.flights fs → result ≡ false ↔ Each (λ p. self.now.at.now.place ≢ p) (arrivals_of fs) }
    {
        if self.mark & tail.mark == 0 {
            return false;
        }
        self.calls_at(tail, self.at.place)
    }

    /// Whether a tail calls at no place of a head.
    fn is_apart(&self, head: &CrossingHead, tail: &JoinTail) -> bool
        requires bucket { IsBucket self.now }
        requires head { IsIn head.now self.now.heads.now }
        requires tail { IsJoinTail self.now.case.now.book.now self.now.case.now.request.now self.now.paths.now tail.now }
        ensures { (path : PathData) → slice_get self.now.paths.now tail.now.number ≡ Some path → (fs gs : Items DatedFlight) → HeadFlies self.now.case.now.book.now head.now fs → Numbers self.now.case.now.book.now path.flights gs → IsTrue result ↔ Each (λ p. Each (λ q. p ≢ q) (arrivals_of gs)) (calls self.now.at.now.place fs) }
    {
        if self.calls_here(tail) {
            return false;
        }
        let numbers = head.numbers();
        !self.calls_at_one(tail, numbers)
    }

    /// Whether a flight of a tail arrives where one of some flights does.
    fn calls_at_one(&self, tail: &JoinTail, numbers: &[u32]) -> bool
        requires tail { IsJoinTail self.now.case.now.book.now self.now.case.now.request.now self.now.paths.now tail.now }
        requires numbers { (fs : Items DatedFlight) × Numbers self.now.case.now.book.now numbers.now fs }
        ensures { (path : PathData) → slice_get self.now.paths.now tail.now.number ≡ Some path → (fs gs : Items DatedFlight) → Numbers self.now.case.now.book.now numbers.now fs → Numbers self.now.case.now.book.now path.flights gs → result ≡ false ↔ Each (λ p. Each (λ q. p ≢ q) (arrivals_of gs)) (arrivals_of fs) }
    {
        let all = self.case.flights();
        for number in numbers {
            if self.calls_at(tail, all[*number as usize].to) {
                return true;
            }
        }
        false
    }

    /// Whether a flight of a tail arrives at a place.
    fn calls_at(&self, tail: &JoinTail, place: Place) -> bool
        requires { IsJoinTail self.now.case.now.book.now self.now.case.now.request.now self.now.paths.now tail.now }
        ensures { (path : PathData) → slice_get self.now.paths.now tail.now.number ≡ Some path → (fs : Items DatedFlight) → Numbers self.now.case.now.book.now path.flights fs → result ≡ false ↔ Each (λ p. place ≢ p) (arrivals_of fs) }
    {
        let all = self.case.flights();
        let numbers = self.paths[tail.number].flights.as_slice();
        for number in numbers {
            if all[*number as usize].to.is(place) {
                return true;
            }
        }
        false
    }
}

/// The classes of seats that are open on some of these heads.
fn union_of(heads: &[CrossingHead]) -> u32
    ensures { (h : OneHead) → IsIn h heads.now → AreAmong h.classes result }
{
    let mut classes = 0;
    for head in heads {
        classes |= head.classes;
    }
    classes
}

/// Those of at most so many flights.
fn reach_of(heads: &[CrossingHead], count: u32) -> Reach
    ensures { IsReach heads.now count result }
{
    let mut end = 0;
    let mut low = u32::MAX;
    for at in 0..heads.len() {
        let head = &heads[at];
        if head.count <= count {
            end = at + 1;
            low = if head.lo < low { head.lo } else { low };
        }
    }
    Reach { end, low }
}
