//! What rules say of the heads of a bucket. Found once for a rule.
ghost use Rattle.std.specs.Prelude.{◌≡◌, ◌+◌, ◌<◌, ℕ, IfOk, IfSome, IsTrue, List as Items, Some, [], length, slice_get, true};
ghost use Rattle.fare_ends.specs.declared.rule_numbers.KnownRule.{KnownRule as OneRule};
ghost use Rattle.fare_law.specs.Lists.{IsIn, IsPrefix};
ghost use Rattle.joint_paths.specs.Heads.{IsBucket};
ghost use Rattle.joint_paths.specs.Ruled.{AreRuledHeads, IsOwnRule, IsRuled, IsSaidByName, SaysOfHead, TakesLeast, rule_name};

use crate::buckets::Bucket;
use crate::crossing_heads::CrossingHead;
use fare_ends::{KnownRule, RuleNumbers, lesser};
use fare_law::Mem;
use std::alloc::Global;

/// What a rule says of the heads of a bucket.
#[derive(Clone, Copy)]
pub struct Ruled {
    /// The number of the rule. None of those that test nothing: they say the same.
    pub rule: Option<usize>,
    /// Where the charges of the first head stand.
    pub from: usize,
    /// The classes of seats that are open on some head that it permits.
    pub classes: u32,
    /// The least charges.
    pub least: u64,
}

/// What the rules that were asked for say.
#[derive(Drop)]
pub struct RuledHeads {
    /// Where it may stand what a rule says, by its spot. What is told here of another bucket is compared before it is taken.
    pub places: Vec<usize>,
    pub of: Vec<Ruled>,
    /// The charges of each head. None where it isn't permitted.
    pub charges: Vec<Option<u64>>,
}

impl RuledHeads {
    /// No rule yet.
    pub fn new(alloc: Global) -> RuledHeads {
        RuledHeads {
            places: Vec::new(alloc),
            of: Vec::new(alloc),
            charges: Vec::new(alloc),
        }
    }

    /// Forgets all.
    pub fn clear(&mut self)
        ensures { self.new.of.items ≡ [] }
    {
        self.of.clear();
        self.charges.clear();
    }

    /// What the rule of a number says.
    pub fn find(
        &mut self,
        bucket: &Bucket<'_>,
        rules: &RuleNumbers,
        number: usize,
    ) -> Result<Ruled, Mem>
        requires bucket { IsBucket bucket.now }
        requires rule { (one : OneRule) × (slice_get rules.now.of.items number ≡ Some one) × IsOwnRule bucket.now one }
        requires known { AreRuledHeads bucket.now rules.now.of.items self.old }
        ensures known { AreRuledHeads bucket.now rules.now.of.items self.new }
        ensures ruled { IfOk result (λ r. (one : OneRule) → slice_get rules.now.of.items number ≡ Some one → IsRuled bucket.now self.new.charges.items one r) }
    {
        let rule = rules.get(number);
        let name = name_of(rule, number);
        match known(self.of.as_slice(), self.places.as_slice(), name) {
            Some(ruled) => Ok(ruled),
            None => self.add(bucket, rule, name),
        }
    }

    /// Adds what a rule says.
    fn add(
        &mut self,
        bucket: &Bucket<'_>,
        rule: &KnownRule,
        name: Option<usize>,
    ) -> Result<Ruled, Mem>
        requires bucket { IsBucket bucket.now }
        requires rule { IsOwnRule bucket.now rule.now }
        ensures known { (rules : Items OneRule) (number : ℕ) → slice_get rules number ≡ Some rule.now → name ≡ rule_name rule.now number → AreRuledHeads bucket.now rules self.old → AreRuledHeads bucket.now rules self.new }
        ensures ruled { IfOk result (IsRuled bucket.now self.new.charges.items rule.now) }
    {
        let ruled = self.charge_heads(bucket, rule, name)?;
        put(&mut self.places, spot_of(name), self.of.len())?;
        self.of.push(ruled)?;
        Ok(ruled)
    }

    /// Adds the charges of a rule on each head.
    fn charge_heads(
        &mut self,
        bucket: &Bucket<'_>,
        rule: &KnownRule,
        name: Option<usize>,
    ) -> Result<Ruled, Mem>
        requires bucket { IsBucket bucket.now }
        requires rule { IsOwnRule bucket.now rule.now }
        ensures of { self.new.of ≡ self.old.of }
        ensures grows { IsPrefix self.old.charges.items self.new.charges.items }
        ensures ruled { IfOk result (IsRuled bucket.now self.new.charges.items rule.now) }
        ensures named { IfOk result (λ r. (rules : Items OneRule) (number : ℕ) → slice_get rules number ≡ Some rule.now → name ≡ rule_name rule.now number → IsSaidByName bucket.now rules self.new.charges.items r) }
    {
        let from = self.charges.len();
        let mut classes = 0;
        let mut least = None;
        for head in bucket.heads {
            let charges = charges_of(bucket, rule, head);
            classes |= permitted_classes(head, charges);
            least = with_charges(charges, least);
            self.charges.push(charges)?;
        }
        Ok(Ruled {
            rule: name,
            from,
            classes,
            least: least.unwrap_or(0),
        })
    }

    /// The charges of the head at a place. None where the rule doesn't permit it.
    #[inline]
    pub fn charges(&self, ruled: &Ruled, head: usize) -> Option<u64>
        requires { ruled.now.from + head < length self.now.charges.items }
        ensures { slice_get self.now.charges.items (ruled.now.from + head) ≡ Some result }
    {
        self.charges[ruled.from + head]
    }
}

/// The number by which it is kept what a rule says.
fn name_of(rule: &KnownRule, number: usize) -> Option<usize>
    ensures { result ≡ rule_name rule.now number }
{
    if rule.is_free { None } else { Some(number) }
}

/// What is kept by a number, if there is something.
fn known(of: &[Ruled], places: &[usize], name: Option<usize>) -> Option<Ruled>
    ensures { IfSome result (λ r. IsIn r of.now × (r.rule ≡ name)) }
{
    let at = places.get(spot_of(name)).copied()?;
    let ruled = of.get(at)?;
    if is_same(ruled.rule, name) {
        Some(*ruled)
    } else {
        None
    }
}

/// The spot of what is kept by a number: the first for rules that test nothing.
fn spot_of(name: Option<usize>) -> usize {
    match name {
        Some(number) => number.saturating_add(1),
        None => 0,
    }
}

/// Puts a place at a spot.
fn put(places: &mut Vec<usize>, spot: usize, at: usize) -> Result<(), Mem> {
    if places.len() <= spot {
        places.resize(spot.saturating_add(1), usize::MAX)?;
    }
    if let Some(place) = places.get_mut(spot) {
        *place = at;
    }
    Ok(())
}

fn is_same(one: Option<usize>, other: Option<usize>) -> bool
    ensures { IsTrue result → one ≡ other }
{
    match (one, other) {
        (Some(one), Some(other)) => one == other,
        (None, None) => true,
        _ => false,
    }
}

/// The classes of seats that are open on a head, if a rule permits it.
fn permitted_classes(head: &CrossingHead, charges: Option<u64>) -> u32
    ensures { (c : ℕ) → charges ≡ Some c → result ≡ head.now.classes }
{
    match charges {
        Some(_) => head.classes,
        None => 0,
    }
}

/// The least charges so far, and those of a head more.
fn with_charges(charges: Option<u64>, least: Option<u64>) -> Option<u64>
    ensures { TakesLeast charges least result }
{
    match charges {
        Some(charges) => Some(lesser(charges, least)),
        None => least,
    }
}

/// The charges that a rule adds on a head. None exactly where it doesn't permit it.
fn charges_of(bucket: &Bucket<'_>, rule: &KnownRule, head: &CrossingHead) -> Option<u64>
    requires bucket { IsBucket bucket.now }
    requires rule { IsOwnRule bucket.now rule.now }
    requires head { IsIn head.now bucket.now.heads.now }
    ensures says { SaysOfHead bucket.now rule.now head.now result }
    ensures free { rule.now.is_free ≡ true → result ≡ Some 0 }
{
    if rule.is_free {
        return Some(0);
    }
    let flights = bucket.case.flights_of(head.numbers(), &[]);
    rule.charges(flights.as_slice())
}
