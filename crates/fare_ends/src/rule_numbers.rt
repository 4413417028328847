//! The rules of a search by numbers, and what a rule says of a part of a path: a path that it permits has a first part that it
//! permits, and adds at least what its parts add.
ghost use Rattle.std.specs.Prelude.{◌≡◌, ◌≢◌, ◌≤◌, ◌+◌, ◌++◌, ◌↔◌, [], All, IfNone, IfOk, IfSome, IsTrue, List as Items, Some, false, length, slice_get, true};
ghost use Rattle.std.specs.Int.{IsInRange};
ghost use Rattle.fare_ends.specs.declared.rule_numbers.KnownRule.{KnownRule as OneRule};
ghost use Rattle.fare_ends.specs.Rules.{AreKnownRules, IsFreeRightly, RuleStands, TestsNothing};
ghost use Rattle.fare_groups.specs.Groups.{Permits, extra_of};
ghost use Rattle.fare_law.specs.declared.flights.Flight.{Flight as DatedFlight};
ghost use Rattle.fare_law.specs.Book.{Book as Version, live_rule};
ghost use Rattle.fare_law.specs.Limits.{IsFlight};
ghost use Rattle.fare_law.specs.Lists.{IsPrefix, OnFirst};
ghost use Rattle.fare_law.specs.RuleLimits.{IsRule};

use fare_groups::{GroupKey, extra};
use fare_law::{Carrier, Flight, Mem, Rule, Shared};
use fare_rules::{charge, flights_ok, limits_are_met, stopovers_ok, surcharge};
use indexmap::IndexMap;
use std::alloc::Global;

/// The rule of a carrier and a number.
#[derive(Drop)]
pub struct KnownRule {
    pub rule: Shared<Rule>,
    pub carrier: Carrier,
    pub number: u16,
    /// Whether it permits any flights of which the first is the carrier's, and adds no charges.
    pub is_free: bool,
}

/// The rules that were asked for so far, each with its place.
#[derive(Drop)]
pub struct RuleNumbers {
    /// Where a rule may stand, by its carrier's letters and its number.
    pub places: IndexMap<u32, usize>,
    pub of: Vec<KnownRule>,
}

impl RuleNumbers {
    /// None yet.
    pub fn new(alloc: Global) -> RuleNumbers
        ensures { result.of.items ≡ [] }
    {
        RuleNumbers {
            places: IndexMap::new(alloc),
            of: Vec::new(alloc),
        }
    }

    /// Where the rule of a group stands.
    pub fn find(&mut self, key: GroupKey, rule: &Shared<Rule>) -> Result<usize, Mem>
        ensures grows { IsPrefix self.old.of.items self.new.of.items }
        ensures rules { (b : Version) → live_rule b key.carrier key.number ≡ Some rule.now → AreKnownRules b self.old.of.items → AreKnownRules b self.new.of.items }
        ensures found { IfOk result (RuleStands self.new.of.items key.carrier key.number) }
    {
        match known(self.of.as_slice(), &self.places, key) {
            Some(at) => Ok(at),
            None => self.add(key, rule),
        }
    }

    /// Adds the rule of a group.
    fn add(&mut self, key: GroupKey, rule: &Shared<Rule>) -> Result<usize, Mem>
        ensures grows { IsPrefix self.old.of.items self.new.of.items }
        ensures rules { (b : Version) → live_rule b key.carrier key.number ≡ Some rule.now → AreKnownRules b self.old.of.items → AreKnownRules b self.new.of.items }
        ensures found { IfOk result (RuleStands self.new.of.items key.carrier key.number) }
    {
        let at = self.of.len();
        let is_free = is_free(rule);
        let rule = rule.share()?;
        self.places.insert(letters_of(key), at)?;
        self.of.push(KnownRule {
            rule,
            carrier: key.carrier,
            number: key.number,
            is_free,
        })?;
        Ok(at)
    }

    /// The rule at a place.
    pub fn get(&self, at: usize) -> &KnownRule
        requires { (one : OneRule) × (slice_get self.now.of.items at ≡ Some one) }
        ensures { slice_get self.now.of.items at ≡ Some result.now }
    {
        &self.of[at]
    }
}

/// Where the rule of a group stands, if it is known.
fn known(rules: &[KnownRule], places: &IndexMap<u32, usize>, key: GroupKey) -> Option<usize>
    ensures { IfSome result (RuleStands rules.now key.carrier key.number) }
{
    let at = places.get(&letters_of(key)).copied()?;
    let rule = rules.get(at)?;
    if rule.carrier.is(key.carrier) && rule.number == key.number {
        Some(at)
    } else {
        None
    }
}

/// The carrier's letters and the number of the rule of a group, as one number.
fn letters_of(key: GroupKey) -> u32 {
    let [a, b] = key.carrier.0;
    let [c, d] = key.number.to_le_bytes();
    u32::from_le_bytes([a, b, c, d])
}

/// Whether a rule tests no flights and adds no charges.
fn is_free(rule: &Rule) -> bool
    ensures { IsTrue result → TestsNothing rule.now }
{
    let tests = rule.cat2.is_some() || rule.cat4.is_some() || rule.cat8.is_some();
    !tests && rule.cat9.is_none() && rule.cat12.is_none()
}

impl KnownRule {
    /// The charges on the flights of a path. None exactly where the rule doesn't permit them.
    pub fn charges(&self, flights: &[Flight]) -> Option<u64>
        requires free { IsFreeRightly self.now }
        requires rule { IsRule self.now.rule }
        requires count { IsInRange 1 4 (length flights.now) }
        requires flights { All IsFlight flights.now }
        requires carrier { OnFirst (λ f. f.carrier ≡ self.now.carrier) flights.now }
        ensures some { IfSome result (λ charges. Permits self.now.rule self.now.carrier flights.now × (charges ≡ extra_of self.now.rule flights.now)) }
        ensures none { IfNone result (Permits self.now.rule self.now.carrier flights.now → ⊥) }
        ensures low { IfSome result (λ charges. charges ≤ 35000000) }
    {
        if self.is_free {
            return Some(0);
        }
        limits_are_met();
        extra(&self.rule, self.carrier, flights)
    }

    /// Charges that the rule adds at least for the flights with which a path ends. None where it permits no path that
    /// ends so.
    pub fn tail_charges(&self, flights: &[Flight]) -> Option<u64>
        requires free { IsFreeRightly self.now }
        requires rule { IsRule self.now.rule }
        requires count { length flights.now ≤ 4 }
        requires flights { All IsFlight flights.now }
        ensures some { IfSome result (λ charges. (head : Items DatedFlight) → (extra_of self.now.rule head + charges) ≤ extra_of self.now.rule (head ++ flights.now)) }
        ensures none { IfNone result ((head : Items DatedFlight) → Permits self.now.rule self.now.carrier (head ++ flights.now) → ⊥) }
        ensures low { IfSome result (λ charges. charges ≤ 35000000) }
    {
        if self.is_free {
            return Some(0);
        }
        limits_are_met();
        let rule: &Rule = &self.rule;
        if !flights_ok(rule, flights) {
            return None;
        }
        if !stopovers_ok(rule, flights) {
            return None;
        }
        if !self.keeps_carrier(flights) {
            return None;
        }
        Some(charge(rule, flights) + surcharge(rule, flights))
    }

    /// Whether these are the carrier's flights, or each flight doesn't have to be.
    fn keeps_carrier(&self, flights: &[Flight]) -> bool
        ensures { result ≡ false → IfSome self.now.rule.cat9 (λ c. c.online ≡ true → All (λ f. f.carrier ≡ self.now.carrier) flights.now) → ⊥ }
    {
        match &self.rule.cat9 {
            Some(limit) => !limit.online || self.are_own(flights),
            None => true,
        }
    }

    /// Whether these are the carrier's flights.
    fn are_own(&self, flights: &[Flight]) -> bool
        ensures { IsTrue result ↔ All (λ f. f.carrier ≡ self.now.carrier) flights.now }
    {
        flights.iter().all(|flight| flight.carrier.is(self.carrier))
    }
}
