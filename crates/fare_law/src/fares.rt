//! Fares and what names them.
ghost use Rattle.std.specs.Prelude.{◌≡◌, ◌↔◌, IsTrue};

use crate::{Basis, Carrier, Class, Place};

/// What names a fare: its carrier, its market in the direction of its filing, its basis.
#[derive(Default, PartialEq, Eq, PartialOrd, Ord, Debug, Drop)]
pub struct FareKey {
    pub carrier: Carrier,
    pub from: Place,
    pub to: Place,
    pub basis: Basis,
}

/// The units that a fare may stand in.
#[derive(Clone, Copy, PartialEq, Eq, Debug)]
pub enum FareKind {
    /// Any unit.
    O,
    /// Only a unit of several components; each costs half the amount.
    R,
    /// Only a one way.
    S,
}

/// A filed fare.
#[derive(PartialEq, Eq, Debug, Drop)]
pub struct Fare {
    pub key: FareKey,
    pub class: Class,
    pub kind: FareKind,
    /// 0 to 1,000,000,000, and even for kind R.
    pub amount: u64,
    /// The number of its carrier's rule, 0 for the rule with no category.
    pub rule: u16,
}

impl FareKind {
    /// Whether it is the same kind.
    pub fn is(self, other: FareKind) -> bool
        ensures { IsTrue result ↔ (self ≡ other) }
    {
        match self {
            FareKind::O => matches!(other, FareKind::O),
            FareKind::R => matches!(other, FareKind::R),
            FareKind::S => matches!(other, FareKind::S),
        }
    }
}

impl FareKey {
    /// The same key.
    pub fn copied(&self) -> FareKey
        ensures { result ≡ self.now }
    {
        FareKey {
            carrier: self.carrier,
            from: self.from,
            to: self.to,
            basis: self.basis.copied(),
        }
    }
}

impl Fare {
    /// The same fare.
    pub fn copied(&self) -> Fare
        ensures { result ≡ self.now }
    {
        Fare {
            key: self.key.copied(),
            class: self.class,
            kind: self.kind,
            amount: self.amount,
            rule: self.rule,
        }
    }

    /// Whether it is the same fare.
    pub fn is(&self, other: &Fare) -> bool
        ensures { IsTrue result ↔ (self.now ≡ other.now) }
    {
        // names letter by letter, and what differs most first
        self.amount == other.amount
            && self.key.basis == other.key.basis
            && self.key.carrier.is(other.key.carrier)
            && self.class == other.class
            && self.rule == other.rule
            && self.kind == other.kind
            && self.key.from.is(other.key.from)
            && self.key.to.is(other.key.to)
    }
}
