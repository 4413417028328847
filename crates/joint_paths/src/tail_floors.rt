//! Floors of a tail: a price below which no path is that goes on by it, before its group's rule is asked of it and after.
ghost use Rattle.std.specs.Prelude.{◌≡◌, ◌≤◌, ◌<◌, ◌∷◌, [], IfNone, IfSome, Some, length, slice_get};
ghost use Rattle.flight_paths.specs.declared.positions.Path.{Path as PathData};
ghost use Rattle.joint_paths.specs.Tails.{IsJoinTail};
ghost use Rattle.joint_paths.specs.declared.tail_classes.JoinTail.{JoinTail as OneTail};
ghost use Rattle.joint_paths.specs.Joins.{CostsNothing, IsAsked, IsJoint, IsRoom, IsSought, IsTailLow, TailSays};
ghost use Rattle.joint_paths.specs.Ruled.{IsOwnRule};

use crate::buckets::Bucket;
use crate::joining::{JoinRoom, Joint, Sought};
use crate::rule_charges::Charged;
use crate::tail_classes::JoinTail;
use fare_groups::first_share;

/// A price below which no path is that goes on by a tail, before the rule is asked of it. None only where no path has a price.
pub fn tail_low(joint: &Joint<'_>, room: &JoinRoom, sought: &Sought<'_>, at: usize) -> Option<u64>
    requires room { IsRoom joint.now room.now }
    requires sought { IsSought joint.now room.now sought.now }
    requires tail { at < length joint.now.tails.now }
    ensures some { IfSome result (λ low. (t : OneTail) → slice_get joint.now.tails.now at ≡ Some t → IsTailLow joint.now sought.now t low) }
    ensures none { IfNone result ((t : OneTail) → slice_get joint.now.tails.now at ≡ Some t → CostsNothing joint.now sought.now joint.now.bucket.now.heads.now (t ∷ [])) }
    ensures low { IfSome result (λ low. low ≤ 1035000000) }
{
    let open = room.fitting.classes(at) & sought.ruled.classes;
    let Some(share) = first_share(sought.rungs, open) else {
        return None;
    };
    Some(share + sought.ruled.least)
}

/// Charges that a tail adds at least. None only where the rule permits no path that goes on by it.
pub fn tail_charges(
    joint: &Joint<'_>,
    room: &mut JoinRoom,
    sought: &Sought<'_>,
    at: usize,
) -> Option<u64>
    requires joint { IsJoint joint.now }
    requires room { IsRoom joint.now room.old }
    requires sought { IsSought joint.now room.old sought.now }
    requires charges { IsAsked sought.now room.old }
    requires tail { at < length joint.now.tails.now }
    ensures room { IsRoom joint.now room.new }
    ensures ruled { room.new.ruled ≡ room.old.ruled }
    ensures charges { IsAsked sought.now room.new }
    ensures says { (t : OneTail) → slice_get joint.now.tails.now at ≡ Some t → TailSays joint.now sought.now t result }
    ensures low { IfSome result (λ added. added ≤ 35000000) }
{
    if sought.rule.is_free {
        return Some(0);
    }
    match room.fitting.charges.get(at) {
        Charged::Permitted(added) => Some(added),
        Charged::Refused => None,
        Charged::NotAsked => {
            let added = asked_charges(joint, sought, at);
            room.fitting.charges.put(at, added);
            added
        }
    }
}

/// The same, where the rule wasn't asked yet.
fn asked_charges(joint: &Joint<'_>, sought: &Sought<'_>, at: usize) -> Option<u64>
    requires joint { IsJoint joint.now }
    requires rule { IsOwnRule joint.now.bucket.now sought.now.rule.now }
    requires tail { at < length joint.now.tails.now }
    ensures says { (t : OneTail) → slice_get joint.now.tails.now at ≡ Some t → TailSays joint.now sought.now t result }
    ensures low { IfSome result (λ added. added ≤ 35000000) }
{
    let numbers = numbers_of(joint.bucket, &joint.tails[at]);
    let flights = joint.bucket.case.flights_of(numbers, &[]);
    sought.rule.tail_charges(flights.as_slice())
}

/// The numbers of the flights of a tail.
pub fn numbers_of<'a>(bucket: &Bucket<'a>, tail: &JoinTail) -> &'a [u32]
    requires { IsJoinTail bucket.now.case.now.book.now bucket.now.case.now.request.now bucket.now.paths.now tail.now }
    ensures { (path : PathData) → slice_get bucket.now.paths.now tail.now.number ≡ Some path → result.now ≡ path.flights }
{
    bucket.paths[tail.number].flights.as_slice()
}
