//! The paths that cross into the next slice: heads by buckets, each joined with the tails that end where its carrier has fares.
ghost use Rattle.std.specs.Prelude.{◌≡◌, ◌<◌, ◌≤◌, List as Items, OnOk, Some, length, slice_get, suc, ℕ};
ghost use Rattle.component_table.specs.Begun.{AreCrossingHeads, CrossingPaths, IsKnown, StaysKnown};
ghost use Rattle.component_table.specs.Crossings.{BucketPaths, ClassPaths, EndPaths, FromHeads, GroupPaths, IsOutlineOfBoth, IsSliceTails, KeepsSlice, TailPaths};
ghost use Rattle.component_table.specs.Tables.{AddsThose};
ghost use Rattle.fare_ends.specs.Ends.{IsFareEnd, IsOneOfEnd, between};
ghost use Rattle.fare_ends.specs.Markets.{AreMarkets};
ghost use Rattle.fare_law.specs.Lists.{Each, IsIn, IsPrefix};
ghost use Rattle.joint_paths.specs.declared.crossing_heads.CrossingHead.{CrossingHead as OneHead};
ghost use Rattle.joint_paths.specs.Heads.{IsBucket, IsHeadOf};
ghost use Rattle.joint_paths.specs.JoinEnds.{AreFareJoins, IsJoinEnd};
ghost use Rattle.joint_paths.specs.Joins.{IsJoint, IsRoom};
ghost use Rattle.joint_paths.specs.Ruled.{AreRuledHeads};
ghost use Rattle.joint_paths.specs.Tails.{IsJoinTail, IsTailClass, IsTailOf};
ghost use Rattle.outline_tables.specs.Numbers.{AreRuled};
ghost use Rattle.outlines.specs.declared.outline.Outline.{Outline as OneOutline};

use crate::begun::{Begun, Known};
use crate::slice_tails::SliceTails;
use fare_ends::{EndGroup, FareEnd, Markets, TableCase};
use fare_law::Mem;
use flight_paths::Position;
use joint_paths::{
    Bucket, CrossingHead, HeadOrder, JoinEnd, JoinKey, JoinRange, JoinRoom, JoinTail, Joint,
    TailClass, least_of,
};
use outline_tables::{OutlineNumbers, Priced};
use outlines::Outline;

/// A position, in a search's case.
#[derive(Clone, Copy)]
pub struct JoinOrigin<'a> {
    pub case: &'a TableCase<'a>,
    pub at: &'a Position,
}

/// Adds the outlines of the paths that go on from the heads that were gathered by tails of the next slice.
pub fn join(
    origin: &JoinOrigin<'_>,
    markets: &mut Markets,
    known: &mut Known,
    slice: &mut SliceTails,
    begun: &mut Begun,
    room: &mut JoinRoom,
) -> Result<(), Mem>
    requires markets { AreMarkets origin.now.case.now.book.now markets.old.kept.items }
    requires known { IsKnown origin.now.case.now.book.now known.old }
    requires slice { IsSliceTails origin.now.case.now.book.now origin.now.case.now.request.now known.old.fares slice.old }
    requires next { slice.old.slice ≡ suc origin.now.at.now.slice }
    requires heads { AreCrossingHeads origin.now.case.now.book.now origin.now.case.now.request.now origin.now.at.now begun.old.heads.items }
    ensures markets { AreMarkets origin.now.case.now.book.now markets.new.kept.items }
    ensures known { IsKnown origin.now.case.now.book.now known.new }
    ensures stays { StaysKnown known.old known.new }
    ensures slice { IsSliceTails origin.now.case.now.book.now origin.now.case.now.request.now known.new.fares slice.new }
    ensures keeps { KeepsSlice slice.old slice.new }
    ensures found { OnOk result (AddsThose origin.now.case.now.book.now origin.now.case.now.request.now origin.now.at.now (CrossingPaths origin.now.case.now.book.now origin.now.case.now.request.now origin.now.at.now) known.new.outlines.of.items begun.old.found.items begun.new.found.items) }
{
    origin.case.book.limits();
    begun.heads.sort_unstable_by_key(order_of);
    let heads = begun.heads.as_slice();
    let found = &mut begun.found;
    let mut from = 0;
    while from < heads.len() {
        let to = past_bucket(heads, from);
        let like = &heads[from];
        let key = JoinKey {
            place: origin.at.place,
            carrier: like.carrier,
        };
        let ends = slice.classes.ends.as_slice();
        let range = slice
            .joins
            .find(origin.case, markets, &mut known.fares, ends, key)?;
        let joined = JoinedHeads {
            like,
            heads: &heads[from..to],
            range,
        };
        join_heads(origin, known, slice, &joined, found, room)?;
        from = to;
    }
    Ok(())
}

/// Heads that are like one of them, and where the ends stand for which their carrier has fares.
#[derive(Clone, Copy)]
pub struct JoinedHeads<'a> {
    pub like: &'a CrossingHead,
    pub heads: &'a [CrossingHead],
    pub range: JoinRange,
}

/// Joins heads of one carrier and one first day with the tails of the next slice.
fn join_heads(
    origin: &JoinOrigin<'_>,
    known: &mut Known,
    slice: &SliceTails,
    joined: &JoinedHeads<'_>,
    found: &mut Vec<Priced>,
    room: &mut JoinRoom,
) -> Result<(), Mem>
    requires known { IsKnown origin.now.case.now.book.now known.old }
    requires slice { IsSliceTails origin.now.case.now.book.now origin.now.case.now.request.now known.old.fares slice.now }
    requires next { slice.now.slice ≡ suc origin.now.at.now.slice }
    requires heads { Each (IsHeadOf origin.now.case.now.book.now origin.now.case.now.request.now origin.now.at.now joined.now.like.now.carrier joined.now.like.now.first) joined.now.heads.now }
    requires range { AreFareJoins origin.now.case.now.book.now known.old.fares slice.now.classes.ends.items (record { place = origin.now.at.now.place; carrier = joined.now.like.now.carrier }) joined.now.range slice.now.joins.ends.items }
    ensures known { IsKnown origin.now.case.now.book.now known.new }
    ensures fares { known.new.fares ≡ known.old.fares }
    ensures stays { StaysKnown known.old known.new }
    ensures found { OnOk result (AddsThose origin.now.case.now.book.now origin.now.case.now.request.now origin.now.at.now (FromHeads origin.now.case.now.book.now origin.now.case.now.request.now origin.now.at.now joined.now.heads.now) known.new.outlines.of.items found.old.items found.new.items) }
{
    let paths = slice.paths.as_slice();
    let bucket = Bucket::of(origin.case, origin.at, paths, joined.like, joined.heads);
    join_bucket(&bucket, known, slice, joined.range, found, room)
}

/// Joins a bucket of heads with the tails that end at some ends.
fn join_bucket(
    bucket: &Bucket<'_>,
    known: &mut Known,
    slice: &SliceTails,
    range: JoinRange,
    found: &mut Vec<Priced>,
    room: &mut JoinRoom,
) -> Result<(), Mem>
    requires bucket { IsBucket bucket.now }
    requires known { IsKnown bucket.now.case.now.book.now known.old }
    requires slice { IsSliceTails bucket.now.case.now.book.now bucket.now.case.now.request.now known.old.fares slice.now }
    requires paths { bucket.now.paths.now ≡ slice.now.paths }
    requires range { AreFareJoins bucket.now.case.now.book.now known.old.fares slice.now.classes.ends.items (record { place = bucket.now.at.now.place; carrier = bucket.now.carrier }) range slice.now.joins.ends.items }
    ensures known { IsKnown bucket.now.case.now.book.now known.new }
    ensures fares { known.new.fares ≡ known.old.fares }
    ensures stays { StaysKnown known.old known.new }
    ensures found { OnOk result (AddsThose bucket.now.case.now.book.now bucket.now.case.now.request.now bucket.now.at.now (BucketPaths bucket.now) known.new.outlines.of.items found.old.items found.new.items) }
{
    bucket.case.book.limits();
    room.turn_to_bucket();
    for at in range.from..range.to {
        let end = slice.joins.ends[at];
        join_end(bucket, known, slice, &end, found, room)?;
    }
    Ok(())
}

/// Joins a bucket of heads with the tails that end at one place.
fn join_end(
    bucket: &Bucket<'_>,
    known: &mut Known,
    slice: &SliceTails,
    end: &JoinEnd,
    found: &mut Vec<Priced>,
    room: &mut JoinRoom,
) -> Result<(), Mem>
    requires bucket { IsBucket bucket.now }
    requires known { IsKnown bucket.now.case.now.book.now known.old }
    requires slice { IsSliceTails bucket.now.case.now.book.now bucket.now.case.now.request.now known.old.fares slice.now }
    requires paths { bucket.now.paths.now ≡ slice.now.paths }
    requires end { IsJoinEnd bucket.now.case.now.book.now known.old.fares slice.now.classes.ends.items (record { place = bucket.now.at.now.place; carrier = bucket.now.carrier }) end.now }
    requires ruled { AreRuledHeads bucket.now known.old.fares.rules.of.items room.old.ruled }
    ensures known { IsKnown bucket.now.case.now.book.now known.new }
    ensures fares { known.new.fares ≡ known.old.fares }
    ensures stays { StaysKnown known.old known.new }
    ensures ruled { OnOk result (AreRuledHeads bucket.now known.new.fares.rules.of.items room.new.ruled) }
    ensures found { OnOk result (AddsThose bucket.now.case.now.book.now bucket.now.case.now.request.now bucket.now.at.now (EndPaths bucket.now slice.now end.now) known.new.outlines.of.items found.old.items found.new.items) }
{
    for at in end.from..end.to {
        let joined = JoinedClass {
            end: end.end,
            class: &slice.classes.classes[at],
        };
        join_class(bucket, known, slice, &joined, found, room)?;
    }
    Ok(())
}

/// A class of tails, and the fares of a bucket's carrier for their end.
#[derive(Clone, Copy)]
pub struct JoinedClass<'a> {
    pub end: FareEnd,
    pub class: &'a TailClass,
}

/// Joins a bucket of heads with a class of tails.
fn join_class(
    bucket: &Bucket<'_>,
    known: &mut Known,
    slice: &SliceTails,
    joined: &JoinedClass<'_>,
    found: &mut Vec<Priced>,
    room: &mut JoinRoom,
) -> Result<(), Mem>
    requires bucket { IsBucket bucket.now }
    requires known { IsKnown bucket.now.case.now.book.now known.old }
    requires paths { bucket.now.paths.now ≡ slice.now.paths }
    requires class { IsTailClass bucket.now.case.now.book.now bucket.now.case.now.request.now slice.now.paths slice.now.classes.tails.items joined.now.class.now }
    requires end { IsFareEnd bucket.now.case.now.book.now (record { from = bucket.now.at.now.place; to = joined.now.class.now.end; carrier = bucket.now.carrier }) known.old.fares joined.now.end }
    requires ruled { AreRuledHeads bucket.now known.old.fares.rules.of.items room.old.ruled }
    ensures known { IsKnown bucket.now.case.now.book.now known.new }
    ensures fares { known.new.fares ≡ known.old.fares }
    ensures stays { StaysKnown known.old known.new }
    ensures ruled { OnOk result (AreRuledHeads bucket.now known.new.fares.rules.of.items room.new.ruled) }
    ensures found { OnOk result (AddsThose bucket.now.case.now.book.now bucket.now.case.now.request.now bucket.now.at.now (ClassPaths bucket.now slice.now joined.now.class.now) known.new.outlines.of.items found.old.items found.new.items) }
{
    let tails = tails_after(bucket, slice, joined.class);
    let joint = Joint {
        fares: &known.fares,
        bucket,
        tails,
    };
    add_groups(&joint, &mut known.outlines, joined, found, room)
}

/// The tails of a class, but for the first ones, by which no head goes on.
fn tails_after<'a>(bucket: &Bucket<'_>, slice: &'a SliceTails, class: &TailClass) -> &'a [JoinTail]
    requires bucket { IsBucket bucket.now }
    requires paths { bucket.now.paths.now ≡ slice.now.paths }
    requires class { IsTailClass bucket.now.case.now.book.now bucket.now.case.now.request.now slice.now.paths slice.now.classes.tails.items class.now }
    ensures tails { Each (IsJoinTail bucket.now.case.now.book.now bucket.now.case.now.request.now bucket.now.paths.now) result.now }
    ensures class { Each (IsTailOf bucket.now.case.now.book.now bucket.now.paths.now class.now) result.now }
    ensures all { (o : OneOutline) (ns : Items ℕ) → ClassPaths bucket.now slice.now class.now o ns → TailPaths bucket.now result.now o ns }
{
    let tails = slice.classes.tails(class);
    let from = bucket.before_all(tails);
    &tails[from..]
}

/// Adds the outlines of the groups of an end on the paths of a bucket and a class.
fn add_groups(
    joint: &Joint<'_>,
    outlines: &mut OutlineNumbers,
    joined: &JoinedClass<'_>,
    found: &mut Vec<Priced>,
    room: &mut JoinRoom,
) -> Result<(), Mem>
    requires joint { IsJoint joint.now }
    requires tails { Each (IsTailOf joint.now.bucket.now.case.now.book.now joint.now.bucket.now.paths.now joined.now.class.now) joint.now.tails.now }
    requires end { IsFareEnd joint.now.bucket.now.case.now.book.now (record { from = joint.now.bucket.now.at.now.place; to = joined.now.class.now.end; carrier = joint.now.bucket.now.carrier }) joint.now.fares.now joined.now.end }
    requires ruled { AreRuledHeads joint.now.bucket.now joint.now.fares.now.rules.of.items room.old.ruled }
    requires outlines { AreRuled joint.now.bucket.now.case.now.book.now outlines.old.of.items }
    ensures ruled { OnOk result (AreRuledHeads joint.now.bucket.now joint.now.fares.now.rules.of.items room.new.ruled) }
    ensures outlines { AreRuled joint.now.bucket.now.case.now.book.now outlines.new.of.items }
    ensures stays { IsPrefix outlines.old.of.items outlines.new.of.items }
    ensures found { OnOk result (AddsThose joint.now.bucket.now.case.now.book.now joint.now.bucket.now.case.now.request.now joint.now.bucket.now.at.now (TailPaths joint.now.bucket.now joint.now.tails.now) outlines.new.of.items found.old.items found.new.items) }
{
    joint.bucket.case.book.limits();
    room.turn_to_class(joint)?;
    if room.fitting.whole == 0 {
        return Ok(());
    }
    let groups = joint.fares.groups(joined.end);
    for group in groups {
        add_group(joint, outlines, joined.class, group, found, room)?;
    }
    Ok(())
}

/// Adds the outline of a group on the paths of a bucket and a class, if it has one.
fn add_group(
    joint: &Joint<'_>,
    outlines: &mut OutlineNumbers,
    class: &TailClass,
    group: &EndGroup,
    found: &mut Vec<Priced>,
    room: &mut JoinRoom,
) -> Result<(), Mem>
    requires joint { IsJoint joint.now }
    requires tails { Each (IsTailOf joint.now.bucket.now.case.now.book.now joint.now.bucket.now.paths.now class.now) joint.now.tails.now }
    requires room { IsRoom joint.now room.old }
    requires group { IsOneOfEnd joint.now.bucket.now.case.now.book.now (record { from = joint.now.bucket.now.at.now.place; to = class.now.end; carrier = joint.now.bucket.now.carrier }) joint.now.fares.now group.now }
    requires outlines { AreRuled joint.now.bucket.now.case.now.book.now outlines.old.of.items }
    ensures room { OnOk result (IsRoom joint.now room.new) }
    ensures outlines { AreRuled joint.now.bucket.now.case.now.book.now outlines.new.of.items }
    ensures stays { IsPrefix outlines.old.of.items outlines.new.of.items }
    ensures found { OnOk result (AddsThose joint.now.bucket.now.case.now.book.now joint.now.bucket.now.case.now.request.now joint.now.bucket.now.at.now (GroupPaths joint.now group.now) outlines.new.of.items found.old.items found.new.items) }
{
    joint.bucket.case.book.limits();
    let _flights = joint.bucket.case.flights();
    let Some(price) = least_of(joint, room, group)? else {
        return Ok(());
    };
    let outline = outline_of(joint.bucket, class, group);
    let rule = joint.fares.rules.get(group.rule);
    let outline = outlines.find(&outline, class.after_number, &rule.rule)?;
    found.push(Priced { outline, price })?;
    Ok(())
}

/// The outline of a group's components on the paths of a bucket and a class.
fn outline_of(bucket: &Bucket<'_>, class: &TailClass, group: &EndGroup) -> Outline
    ensures { IsOutlineOfBoth bucket.now class.now group.now result }
{
    Outline {
        after: class.after,
        end: class.end,
        first: bucket.first,
        last: class.last,
        carrier: group.key.carrier,
        number: group.key.number,
        kind: group.key.kind,
        reverse: group.reverse,
    }
}

fn order_of(head: &CrossingHead) -> HeadOrder {
    head.order()
}

/// Where the bucket ends that begins there.
fn past_bucket(heads: &[CrossingHead], from: usize) -> usize
    requires { from < length heads.now }
    ensures past { from < result }
    ensures within { result ≤ length heads.now }
    ensures beside { (one : OneHead) → slice_get heads.now from ≡ Some one → Each (λ (h : OneHead). (h.carrier ≡ one.carrier) × (h.first ≡ one.first)) (between heads.now from result) }
{
    let one = &heads[from];
    for at in from + 1..heads.len() {
        if !heads[at].is_beside(one) {
            return at;
        }
    }
    heads.len()
}
