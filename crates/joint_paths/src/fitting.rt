//! What is known of the tails of a class before the heads of a bucket.
ghost use Rattle.std.specs.Prelude.{◌≡◌, ◌≢◌, ◌<◌, ℕ, IfNone, IfOk, IfSome, None, OnOk, Some, bit_and, length, slice_get};
ghost use Rattle.fare_ends.specs.Ends.{IsRange, between};
ghost use Rattle.fare_ends.specs.Legs.{AreAmong};
ghost use Rattle.fare_law.specs.Lists.{Each, IsIn, IsPrefix};
ghost use Rattle.joint_paths.specs.declared.fitting.FittingHead.{FittingHead as OneFitting};
ghost use Rattle.joint_paths.specs.declared.fitting.TailFit.{TailFit as OneFit};
ghost use Rattle.joint_paths.specs.Fits.{AddsFitting, AreTailFits, IsFitting, IsListed};
ghost use Rattle.joint_paths.specs.declared.crossing_heads.CrossingHead.{CrossingHead as OneHead};
ghost use Rattle.joint_paths.specs.declared.tail_classes.JoinTail.{JoinTail as OneTail};
ghost use Rattle.joint_paths.specs.Heads.{FollowsOn, IsBucket};
ghost use Rattle.joint_paths.specs.Tails.{IsJoinTail};

use crate::buckets::{Bucket, room_before};
use crate::rule_charges::RuleCharges;
use crate::tail_classes::JoinTail;
use fare_law::Mem;
use std::alloc::Global;

/// A head that fits before a tail, and the classes of seats that are open on both.
#[derive(Clone, Copy)]
pub struct FittingHead {
    pub head: usize,
    pub classes: u32,
}

/// What is known of a tail: classes of seats of which each that is open on it and on a head that fits is one, and where the
/// heads that fit stand, once they are listed.
#[derive(Clone, Copy)]
pub struct TailFit {
    pub classes: u32,
    pub listed: Option<HeadRange>,
}

#[derive(Clone, Copy)]
pub struct HeadRange {
    pub from: usize,
    pub to: usize,
}

/// What is known of the tails of a class.
#[derive(Drop)]
pub struct Fitting {
    pub tails: Vec<TailFit>,
    pub heads: Vec<FittingHead>,
    /// Classes of seats of which each that is open on a path of the class is one.
    pub whole: u32,
    /// What the rule that was asked last says of the tails.
    pub charges: RuleCharges,
}

impl Fitting {
    /// Of no tail.
    pub fn new(alloc: Global) -> Fitting {
        Fitting {
            tails: Vec::new(alloc),
            heads: Vec::new(alloc),
            whole: 0,
            charges: RuleCharges::new(alloc),
        }
    }

    /// Turns to the tails of a class.
    pub fn turn_to(&mut self, bucket: &Bucket<'_>, tails: &[JoinTail]) -> Result<(), Mem>
        requires bucket { IsBucket bucket.now }
        requires tails { Each (IsJoinTail bucket.now.case.now.book.now bucket.now.case.now.request.now bucket.now.paths.now) tails.now }
        ensures fits { OnOk result (AreTailFits bucket.now tails.now self.new) }
        ensures charges { self.new.charges.rule ≡ None }
    {
        self.tails.clear();
        self.heads.clear();
        self.charges.clear();
        self.whole = 0;
        for tail in tails {
            let classes = bucket.classes_before(tail);
            self.whole |= classes;
            self.tails.push(TailFit {
                classes,
                listed: None,
            })?;
        }
        Ok(())
    }

    /// Classes of seats of which each that is open on the tail at a place and on a head that fits is one.
    #[inline]
    pub fn classes(&self, at: usize) -> u32
        requires { at < length self.now.tails.items }
        ensures { (fit : OneFit) → slice_get self.now.tails.items at ≡ Some fit → result ≡ fit.classes }
    {
        self.tails[at].classes
    }

    /// The heads that fit before the tail at a place, if they are listed.
    #[inline]
    pub fn listed(&self, at: usize) -> Option<HeadRange>
        requires { at < length self.now.tails.items }
        ensures { (fit : OneFit) → slice_get self.now.tails.items at ≡ Some fit → result ≡ fit.listed }
    {
        self.tails[at].listed
    }

    /// The heads that stand there.
    pub fn heads(&self, range: HeadRange) -> &[FittingHead]
        requires { IsRange self.now.heads.items range.from range.to }
        ensures { result.now ≡ between self.now.heads.items range.from range.to }
    {
        &self.heads[range.from..range.to]
    }

    /// Lists the heads that fit before the tail at a place.
    pub fn list(
        &mut self,
        bucket: &Bucket<'_>,
        tails: &[JoinTail],
        at: usize,
    ) -> Result<HeadRange, Mem>
        requires bucket { IsBucket bucket.now }
        requires tails { Each (IsJoinTail bucket.now.case.now.book.now bucket.now.case.now.request.now bucket.now.paths.now) tails.now }
        requires fits { AreTailFits bucket.now tails.now self.old }
        requires place { at < length tails.now }
        ensures fits { AreTailFits bucket.now tails.now self.new }
        ensures charges { self.new.charges ≡ self.old.charges }
        ensures listed { IfOk result (λ range. (t : OneTail) → slice_get tails.now at ≡ Some t → IsListed bucket.now t self.new.heads.items range) }
    {
        let range = self.add_heads(bucket, &tails[at])?;
        let classes = union_of(self.heads(range));
        self.tails[at] = TailFit {
            classes,
            listed: Some(range),
        };
        Ok(range)
    }

    /// Adds the heads that fit before a tail, and tells where they stand.
    fn add_heads(&mut self, bucket: &Bucket<'_>, tail: &JoinTail) -> Result<HeadRange, Mem>
        requires bucket { IsBucket bucket.now }
        requires tail { IsJoinTail bucket.now.case.now.book.now bucket.now.case.now.request.now bucket.now.paths.now tail.now }
        ensures heads { IsPrefix self.old.heads.items self.new.heads.items }
        ensures listed { IfOk result (IsListed bucket.now tail.now self.new.heads.items) }
        ensures tails { self.new.tails ≡ self.old.tails }
        ensures whole { self.new.whole ≡ self.old.whole }
        ensures charges { self.new.charges ≡ self.old.charges }
    {
        let from = self.heads.len();
        let end = bucket.reach(room_before(tail)).end;
        for head in 0..end {
            self.add_head(bucket, tail, head)?;
        }
        let to = self.heads.len();
        Ok(HeadRange { from, to })
    }

    /// Adds the head at a place, if it fits before a tail.
    fn add_head(&mut self, bucket: &Bucket<'_>, tail: &JoinTail, at: usize) -> Result<(), Mem>
        requires bucket { IsBucket bucket.now }
        requires tail { IsJoinTail bucket.now.case.now.book.now bucket.now.case.now.request.now bucket.now.paths.now tail.now }
        requires place { at < length bucket.now.heads.now }
        ensures heads { IsPrefix self.old.heads.items self.new.heads.items }
        ensures added { OnOk result (AddsFitting bucket.now tail.now at self.old.heads.items self.new.heads.items) }
        ensures tails { self.new.tails ≡ self.old.tails }
        ensures whole { self.new.whole ≡ self.old.whole }
        ensures charges { self.new.charges ≡ self.old.charges }
    {
        let Some(one) = fitting_head(bucket, tail, at) else {
            return Ok(());
        };
        self.heads.push(one)?;
        Ok(())
    }
}

/// The head at a place with the classes of seats that are open on it and on a tail. None only where it doesn't fit before the
/// tail or none is open.
fn fitting_head(bucket: &Bucket<'_>, tail: &JoinTail, at: usize) -> Option<FittingHead>
    requires bucket { IsBucket bucket.now }
    requires tail { IsJoinTail bucket.now.case.now.book.now bucket.now.case.now.request.now bucket.now.paths.now tail.now }
    requires place { at < length bucket.now.heads.now }
    ensures some { IfSome result (λ f. IsFitting bucket.now tail.now f × (f.head ≡ at)) }
    ensures none { IfNone result ((h : OneHead) → slice_get bucket.now.heads.now at ≡ Some h → FollowsOn bucket.now h tail.now → bit_and h.classes tail.now.classes ≢ 0 → ⊥) }
{
    let head = &bucket.heads[at];
    let classes = head.classes & tail.classes;
    if classes == 0 {
        return None;
    }
    if !bucket.fits(head, tail) {
        return None;
    }
    Some(FittingHead { head: at, classes })
}

/// The classes of seats that are open on some of these heads.
fn union_of(heads: &[FittingHead]) -> u32
    ensures each { (h : OneFitting) → IsIn h heads.now → AreAmong h.classes result }
    ensures least { (more : ℕ) → ((h : OneFitting) → IsIn h heads.now → AreAmong h.classes more) → AreAmong result more }
{
    let mut classes = 0;
    for head in heads {
        classes |= head.classes;
    }
    classes
}
