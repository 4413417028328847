//! What the rule that was asked last says of some paths, by their places, so that groups of one rule ask once.
ghost use Rattle.std.specs.Prelude.{◌≡◌, ◌≢◌, ◌↔◌, ◌<◌, [], IsTrue, None, OnOk, Some, length, slice_get, vec_len};
ghost use Rattle.fare_law.specs.Lists.{Each};
ghost use Rattle.joint_paths.specs.declared.rule_charges.Charged.TheVariants.{NotAsked};
ghost use Rattle.joint_paths.specs.Said.{PutsCharged};

use fare_law::Mem;
use std::alloc::Global;

/// What a rule says of a path.
#[derive(Clone, Copy)]
pub enum Charged {
    NotAsked,
    Refused,
    Permitted(u64),
}

/// What the rule of a number says of so many paths.
#[derive(Drop)]
pub struct RuleCharges {
    pub rule: Option<usize>,
    pub of: Vec<Charged>,
}

impl RuleCharges {
    /// Of no rule.
    pub fn new(alloc: Global) -> RuleCharges
        ensures { result.rule ≡ None }
    {
        RuleCharges {
            rule: None,
            of: Vec::new(alloc),
        }
    }

    /// Forgets what was said.
    pub fn clear(&mut self)
        ensures { self.new.rule ≡ None }
    {
        self.rule = None;
    }

    /// Turns to the rule of a number and to so many paths.
    pub fn turn_to(&mut self, rule: usize, count: usize) -> Result<(), Mem>
        ensures stays { self.old.rule ≡ Some rule → self.new ≡ self.old }
        ensures anew { self.old.rule ≢ Some rule → OnOk result ((length self.new.of.items ≡ count) × Each (λ c. c ≡ NotAsked) self.new.of.items) }
        ensures rule { OnOk result (self.new.rule ≡ Some rule) }
    {
        if is_rule(self.rule, rule) {
            return Ok(());
        }
        self.rule = None;
        self.of.clear();
        lengthen(&mut self.of, count)?;
        self.rule = Some(rule);
        Ok(())
    }

    /// What it says of the path at a place.
    #[inline]
    pub fn get(&self, at: usize) -> Charged
        requires { at < vec_len self.now.of }
        ensures { slice_get self.now.of.items at ≡ Some result }
    {
        self.of[at]
    }

    /// Tells what it says of the path at a place.
    pub fn put(&mut self, at: usize, charges: Option<u64>)
        requires { at < vec_len self.old.of }
        ensures puts { PutsCharged at charges self.old.of.items self.new.of.items }
        ensures rule { self.new.rule ≡ self.old.rule }
    {
        self.of[at] = match charges {
            Some(charges) => Charged::Permitted(charges),
            None => Charged::Refused,
        };
    }
}

/// Whether it is the rule of this number.
fn is_rule(known: Option<usize>, rule: usize) -> bool
    ensures { IsTrue result ↔ (known ≡ Some rule) }
{
    match known {
        Some(known) => known == rule,
        None => false,
    }
}

/// Adds paths that weren't asked for, up to so many.
fn lengthen(of: &mut Vec<Charged>, count: usize) -> Result<(), Mem>
    requires { of.old.items ≡ [] }
    ensures none { Each (λ c. c ≡ NotAsked) of.new.items }
    ensures count { OnOk result (length of.new.items ≡ count) }
{
    while of.len() < count {
        of.push(Charged::NotAsked)?;
    }
    Ok(())
}
