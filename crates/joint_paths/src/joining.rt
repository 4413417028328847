//! Heads of a bucket joined with tails of a class: for each group of fares the least price, looked for until a floor is met
//! below which no path of them can be.
ghost use Rattle.std.specs.Prelude.{◌≡◌, ◌≤◌, ◌<◌, ◌∷◌, [], IfNone, IfOk, IfSome, OnOk, Some, false, length, slice_get};
ghost use Rattle.fare_ends.specs.declared.rule_numbers.KnownRule.{KnownRule as OneRule};
ghost use Rattle.fare_ends.specs.Ends.{between};
ghost use Rattle.fare_groups.specs.Groups.{Permits, extra_of};
ghost use Rattle.fare_law.specs.Lists.{IsIn, IsPrefix};
ghost use Rattle.joint_paths.specs.declared.crossing_heads.CrossingHead.{CrossingHead as OneHead};
ghost use Rattle.joint_paths.specs.declared.tail_classes.JoinTail.{JoinTail as OneTail};
ghost use Rattle.joint_paths.specs.Fits.{IsFitting, IsListed};
ghost use Rattle.joint_paths.specs.Heads.{FollowsOn};
ghost use Rattle.joint_paths.specs.Costs.{CostsLeast, IsLowPrice};
ghost use Rattle.joint_paths.specs.Joins.{IsAsked, IsJoint, IsOnward, IsOpenHead, IsOwnGroup, IsPair, IsRoom, IsSought, PathsOf, SeekDown};
ghost use Rattle.joint_paths.specs.Ruled.{AreRuledHeads, IsOwnRule};
ghost use Rattle.fare_ends.specs.Floors.{OpenPath};

use crate::buckets::Bucket;
use crate::crossing_heads::CrossingHead;
use crate::fitting::{Fitting, FittingHead, HeadRange};
use crate::ruled_heads::{Ruled, RuledHeads};
use crate::tail_classes::JoinTail;
use crate::tail_floors::{numbers_of, tail_charges, tail_low};
use fare_ends::{EndGroup, FareEnds, KnownRule, is_less, lesser};
use fare_groups::{Rung, first_share};
use fare_law::Mem;
use std::alloc::Global;

/// So many heads are tried with a tail as they stand, before those that fit are listed.
const FEW: usize = 8;

/// A bucket of heads and a class of tails, with the fares that are known.
#[derive(Clone, Copy)]
pub struct Joint<'a> {
    pub fares: &'a FareEnds,
    pub bucket: &'a Bucket<'a>,
    pub tails: &'a [JoinTail],
}

/// What is known of a bucket, and of it and a class.
#[derive(Drop)]
pub struct JoinRoom {
    pub ruled: RuledHeads,
    pub fitting: Fitting,
}

/// A group of fares, its rule, what the rule says of the heads, and a price below which no path is.
#[derive(Clone, Copy)]
pub struct Sought<'a> {
    pub rungs: &'a [Rung],
    pub rule: &'a KnownRule,
    pub number: usize,
    pub ruled: Ruled,
    pub floor: u64,
}

/// A tail at its place, the charges that it adds at least, and a price below which no path is that goes on by it.
#[derive(Clone, Copy)]
pub struct Onward<'a> {
    pub at: usize,
    pub tail: &'a JoinTail,
    pub added: u64,
    pub floor: u64,
}

/// A head at its place, and the share of the cheapest fare that is open on it and on a tail.
#[derive(Clone, Copy)]
pub struct OpenHead<'a> {
    pub number: usize,
    pub head: &'a CrossingHead,
    pub share: u64,
}

impl JoinRoom {
    /// Of no bucket.
    pub fn new(alloc: Global) -> JoinRoom {
        JoinRoom {
            ruled: RuledHeads::new(alloc),
            fitting: Fitting::new(alloc),
        }
    }

    /// Turns to a bucket.
    pub fn turn_to_bucket(&mut self)
        ensures { self.new.ruled.of.items ≡ [] }
    {
        self.ruled.clear();
    }

    /// Turns to the tails of a class.
    pub fn turn_to_class(&mut self, joint: &Joint<'_>) -> Result<(), Mem>
        requires joint { IsJoint joint.now }
        requires ruled { AreRuledHeads joint.now.bucket.now joint.now.fares.now.rules.of.items self.old.ruled }
        ensures { OnOk result (IsRoom joint.now self.new) }
    {
        self.fitting.turn_to(joint.bucket, joint.tails)
    }
}

/// The least price of a group on the paths of a bucket and a class. None exactly where it has none.
pub fn least_of(
    joint: &Joint<'_>,
    room: &mut JoinRoom,
    group: &EndGroup,
) -> Result<Option<u64>, Mem>
    requires joint { IsJoint joint.now }
    requires room { IsRoom joint.now room.old }
    requires group { IsOwnGroup joint.now group.now }
    ensures room { OnOk result (IsRoom joint.now room.new) }
    ensures least { IfOk result (λ least. (one : OneRule) → slice_get joint.now.fares.now.rules.of.items group.now.rule ≡ Some one → CostsLeast one (between joint.now.fares.now.rungs.items group.now.from group.now.to) (PathsOf joint.now joint.now.tails.now) least) }
    ensures low { IfOk result IsLowPrice }
{
    let fares = joint.fares;
    let rungs = fares.rungs(group);
    let whole = room.fitting.whole;
    if first_share(rungs, whole).is_none() {
        return Ok(None);
    }
    let ruled = room.ruled.find(joint.bucket, &fares.rules, group.rule)?;
    let Some(share) = first_share(rungs, whole & ruled.classes) else {
        return Ok(None);
    };
    let sought = Sought {
        rungs,
        rule: fares.rules.get(group.rule),
        number: group.rule,
        ruled,
        floor: share + ruled.least,
    };
    ask(joint, room, &sought)?;
    over_tails(joint, room, &sought)
}

/// Turns to the rule of what is sought, unless it tests nothing.
fn ask(joint: &Joint<'_>, room: &mut JoinRoom, sought: &Sought<'_>) -> Result<(), Mem>
    requires room { IsRoom joint.now room.old }
    ensures room { OnOk result (IsRoom joint.now room.new) }
    ensures ruled { room.new.ruled ≡ room.old.ruled }
    ensures charges { OnOk result (IsAsked sought.now room.new) }
{
    if sought.rule.is_free {
        return Ok(());
    }
    let count = joint.tails.len();
    room.fitting.charges.turn_to(sought.number, count)?;
    Ok(())
}

/// The least price over all tails.
fn over_tails(
    joint: &Joint<'_>,
    room: &mut JoinRoom,
    sought: &Sought<'_>,
) -> Result<Option<u64>, Mem>
    requires joint { IsJoint joint.now }
    requires room { IsRoom joint.now room.old }
    requires sought { IsSought joint.now room.old sought.now }
    requires charges { IsAsked sought.now room.old }
    ensures room { OnOk result (IsRoom joint.now room.new) }
    ensures least { IfOk result (CostsLeast sought.now.rule.now sought.now.rungs.now (PathsOf joint.now joint.now.tails.now)) }
    ensures low { IfOk result IsLowPrice }
{
    let mut least = None;
    for at in 0..joint.tails.len() {
        if !is_less(sought.floor, least) {
            return Ok(least);
        }
        least = with_tail(joint, room, sought, at, least)?;
    }
    Ok(least)
}

/// The least price with a tail more.
fn with_tail(
    joint: &Joint<'_>,
    room: &mut JoinRoom,
    sought: &Sought<'_>,
    at: usize,
    least: Option<u64>,
) -> Result<Option<u64>, Mem>
    requires joint { IsJoint joint.now }
    requires room { IsRoom joint.now room.old }
    requires sought { IsSought joint.now room.old sought.now }
    requires charges { IsAsked sought.now room.old }
    requires tail { at < length joint.now.tails.now }
    ensures room { OnOk result (IsRoom joint.now room.new) }
    ensures sought { OnOk result (IsSought joint.now room.new sought.now) }
    ensures charges { OnOk result (IsAsked sought.now room.new) }
    ensures least { IfOk result (λ r. (t : OneTail) → slice_get joint.now.tails.now at ≡ Some t → SeekDown joint.now sought.now joint.now.bucket.now.heads.now (t ∷ []) least r) }
{
    let Some(low) = tail_low(joint, room, sought, at) else {
        return Ok(least);
    };
    if !is_less(low, least) {
        return Ok(least);
    }
    let Some(added) = tail_charges(joint, room, sought, at) else {
        return Ok(least);
    };
    let floor = low + added;
    if !is_less(floor, least) {
        return Ok(least);
    }
    let onward = Onward {
        at,
        tail: &joint.tails[at],
        added,
        floor,
    };
    with_heads(joint, room, sought, &onward, least)
}

/// The least price with the heads more that fit before a tail.
fn with_heads(
    joint: &Joint<'_>,
    room: &mut JoinRoom,
    sought: &Sought<'_>,
    onward: &Onward<'_>,
    least: Option<u64>,
) -> Result<Option<u64>, Mem>
    requires joint { IsJoint joint.now }
    requires room { IsRoom joint.now room.old }
    requires sought { IsSought joint.now room.old sought.now }
    requires charges { IsAsked sought.now room.old }
    requires onward { IsOnward joint.now sought.now onward.now }
    ensures room { OnOk result (IsRoom joint.now room.new) }
    ensures sought { OnOk result (IsSought joint.now room.new sought.now) }
    ensures charges { OnOk result (IsAsked sought.now room.new) }
    ensures least { IfOk result (SeekDown joint.now sought.now joint.now.bucket.now.heads.now (onward.now.tail.now ∷ []) least) }
{
    if let Some(range) = room.fitting.listed(onward.at) {
        return Ok(with_fitting(joint, room, sought, onward, range, least));
    }
    let few = first_few(joint.bucket.heads);
    let low = with_few(joint, room, sought, onward, few, least);
    if few.len() == joint.bucket.heads.len() {
        return Ok(low);
    }
    if !is_less(onward.floor, low) {
        return Ok(low);
    }
    let range = room.fitting.list(joint.bucket, joint.tails, onward.at)?;
    Ok(with_fitting(joint, room, sought, onward, range, low))
}

/// The first few heads.
fn first_few(heads: &[CrossingHead]) -> &[CrossingHead]
    ensures { IsPrefix result.now heads.now }
{
    if heads.len() < FEW {
        return heads;
    }
    &heads[..FEW]
}

/// The least price with the first few heads more.
fn with_few(
    joint: &Joint<'_>,
    room: &JoinRoom,
    sought: &Sought<'_>,
    onward: &Onward<'_>,
    few: &[CrossingHead],
    least: Option<u64>,
) -> Option<u64>
    requires joint { IsJoint joint.now }
    requires sought { IsSought joint.now room.now sought.now }
    requires onward { IsOnward joint.now sought.now onward.now }
    requires few { IsPrefix few.now joint.now.bucket.now.heads.now }
    ensures { SeekDown joint.now sought.now few.now (onward.now.tail.now ∷ []) least result }
{
    let mut low = least;
    for number in 0..few.len() {
        if !is_less(onward.floor, low) {
            return low;
        }
        low = with_unlisted(joint, room, sought, onward, number, low);
    }
    low
}

/// The least price with a head more, if it fits.
fn with_unlisted(
    joint: &Joint<'_>,
    room: &JoinRoom,
    sought: &Sought<'_>,
    onward: &Onward<'_>,
    number: usize,
    least: Option<u64>,
) -> Option<u64>
    requires joint { IsJoint joint.now }
    requires sought { IsSought joint.now room.now sought.now }
    requires onward { IsOnward joint.now sought.now onward.now }
    requires head { number < length joint.now.bucket.now.heads.now }
    ensures { (h : OneHead) → slice_get joint.now.bucket.now.heads.now number ≡ Some h → SeekDown joint.now sought.now (h ∷ []) (onward.now.tail.now ∷ []) least result }
{
    let head = &joint.bucket.heads[number];
    let classes = head.classes & onward.tail.classes;
    let Some(share) = first_share(sought.rungs, classes) else {
        return least;
    };
    let one = OpenHead {
        number,
        head,
        share,
    };
    if !may_lower(joint, room, sought, onward, &one, least) {
        return least;
    }
    if !joint.bucket.fits(head, onward.tail) {
        return least;
    }
    with_pair(joint, sought, onward, &one, least)
}

/// The least price with the listed heads more that fit before a tail.
fn with_fitting(
    joint: &Joint<'_>,
    room: &JoinRoom,
    sought: &Sought<'_>,
    onward: &Onward<'_>,
    range: HeadRange,
    least: Option<u64>,
) -> Option<u64>
    requires joint { IsJoint joint.now }
    requires sought { IsSought joint.now room.now sought.now }
    requires onward { IsOnward joint.now sought.now onward.now }
    requires listed { IsListed joint.now.bucket.now onward.now.tail.now room.now.fitting.heads.items range }
    ensures { SeekDown joint.now sought.now joint.now.bucket.now.heads.now (onward.now.tail.now ∷ []) least result }
{
    let heads = room.fitting.heads(range);
    let mut low = least;
    for one in heads {
        if !is_less(onward.floor, low) {
            return low;
        }
        low = with_listed(joint, room, sought, onward, one, low);
    }
    low
}

/// The least price with a listed head more.
fn with_listed(
    joint: &Joint<'_>,
    room: &JoinRoom,
    sought: &Sought<'_>,
    onward: &Onward<'_>,
    one: &FittingHead,
    least: Option<u64>,
) -> Option<u64>
    requires joint { IsJoint joint.now }
    requires sought { IsSought joint.now room.now sought.now }
    requires onward { IsOnward joint.now sought.now onward.now }
    requires head { IsFitting joint.now.bucket.now onward.now.tail.now one.now }
    requires place { one.now.head < length joint.now.bucket.now.heads.now }
    ensures { (h : OneHead) → slice_get joint.now.bucket.now.heads.now one.now.head ≡ Some h → SeekDown joint.now sought.now (h ∷ []) (onward.now.tail.now ∷ []) least result }
{
    let Some(share) = first_share(sought.rungs, one.classes) else {
        return least;
    };
    if !is_less(share + onward.added, least) {
        return least;
    }
    let one = OpenHead {
        number: one.head,
        head: &joint.bucket.heads[one.head],
        share,
    };
    if !may_lower(joint, room, sought, onward, &one, least) {
        return least;
    }
    with_pair(joint, sought, onward, &one, least)
}

/// Whether a path of a head and a tail may be lower than the least so far, by what the rule says of both.
fn may_lower(
    joint: &Joint<'_>,
    room: &JoinRoom,
    sought: &Sought<'_>,
    onward: &Onward<'_>,
    one: &OpenHead<'_>,
    least: Option<u64>,
) -> bool
    requires joint { IsJoint joint.now }
    requires sought { IsSought joint.now room.now sought.now }
    requires onward { IsOnward joint.now sought.now onward.now }
    requires head { IsOpenHead joint.now sought.now onward.now.tail.now one.now }
    ensures { result ≡ false → SeekDown joint.now sought.now (one.now.head.now ∷ []) (onward.now.tail.now ∷ []) least least }
{
    match room.ruled.charges(&sought.ruled, one.number) {
        Some(charges) => is_less(one.share + charges + onward.added, least),
        None => false,
    }
}

/// The least price with a path more, of a head and a tail that fits.
fn with_pair(
    joint: &Joint<'_>,
    sought: &Sought<'_>,
    onward: &Onward<'_>,
    one: &OpenHead<'_>,
    least: Option<u64>,
) -> Option<u64>
    requires joint { IsJoint joint.now }
    requires rule { IsOwnRule joint.now.bucket.now sought.now.rule.now }
    requires tail { IsIn onward.now.tail.now joint.now.tails.now }
    requires head { IsOpenHead joint.now sought.now onward.now.tail.now one.now }
    requires follows { FollowsOn joint.now.bucket.now one.now.head.now onward.now.tail.now }
    ensures { SeekDown joint.now sought.now (one.now.head.now ∷ []) (onward.now.tail.now ∷ []) least result }
{
    match pair_charges(joint, sought, one.head, onward.tail) {
        Some(charges) => Some(lesser(one.share + charges, least)),
        None => least,
    }
}

/// The charges on a path of a head and a tail that fits. None exactly where the rule doesn't permit it.
fn pair_charges(
    joint: &Joint<'_>,
    sought: &Sought<'_>,
    head: &CrossingHead,
    tail: &JoinTail,
) -> Option<u64>
    requires joint { IsJoint joint.now }
    requires rule { IsOwnRule joint.now.bucket.now sought.now.rule.now }
    requires head { IsIn head.now joint.now.bucket.now.heads.now }
    requires tail { IsIn tail.now joint.now.tails.now }
    requires follows { FollowsOn joint.now.bucket.now head.now tail.now }
    ensures some { IfSome result (λ charges. (p : OpenPath) → IsPair joint.now.bucket.now head.now tail.now p → Permits sought.now.rule.now.rule sought.now.rule.now.carrier p.flights × (charges ≡ extra_of sought.now.rule.now.rule p.flights)) }
    ensures none { IfNone result ((p : OpenPath) → IsPair joint.now.bucket.now head.now tail.now p → Permits sought.now.rule.now.rule sought.now.rule.now.carrier p.flights → ⊥) }
    ensures low { IfSome result (λ charges. charges ≤ 35000000) }
{
    if sought.rule.is_free {
        return Some(0);
    }
    let back = numbers_of(joint.bucket, tail);
    let flights = joint.bucket.case.flights_of(head.numbers(), back);
    sought.rule.charges(flights.as_slice())
}
