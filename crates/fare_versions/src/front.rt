//! Fronts: beginnings of a history.
ghost use Rattle.std.specs.Prelude.{◌≡◌, ◌<◌, ◌≤◌, ◌⊎◌, length, MatchBool};
ghost use Rattle.fare_law.specs.Lists.{IsPrefix};

use crate::rule::Counting;
use fare_law::Filing;
use logbook::Seen;
use std::marker::Model;

/// A beginning of a history that was seen.
#[derive(Drop)]
pub struct Front {
    pub(crate) count: u64,
    pub(crate) seen: Seen<Filing, u64, Counting>,
}

impl Model for Front {
    ghost use Rattle.std.specs.Prelude.{◌≡◌, length};
    ghost use Rattle.fare_versions.specs.Histories.{HouseHistory};

    ghost Value = { HouseHistory };

    ghost view = { λ f. record { house = f.seen.book; entries = f.seen.log } };

    ghost invariant = { λ f. f.count ≡ length f.seen.log };
}

impl Front {
    /// How many entries it has.
    pub fn count(&self) -> u64
        ensures { result ≡ length self.now.entries }
    {
        self.count
    }

    /// The same front.
    pub fn copied(&self) -> Front
        ensures { result ≡ self.now }
    {
        Front {
            count: self.count,
            seen: self.seen.again(),
        }
    }

    /// Whether the other front of the same history has all that this one has. If not, this one has more.
    pub fn begins(&self, other: &Front) -> bool
        requires { self.now.house ≡ other.now.house }
        ensures { MatchBool result (IsPrefix self.now.entries other.now.entries) (IsPrefix other.now.entries self.now.entries × (length other.now.entries < length self.now.entries)) }
    {
        let mut both = self.seen.again();
        both.learn(&other.seen);
        self.count <= other.count
    }

    /// Tells that two fronts of the same history are beginnings of it: the shorter begins the longer, and those that are as
    /// long as each other are equal.
    pub fn tell_order(&self, other: &Front)
        requires { self.now.house ≡ other.now.house }
        ensures begins { length self.now.entries ≤ length other.now.entries → IsPrefix self.now.entries other.now.entries }
        ensures equal { length self.now.entries ≡ length other.now.entries → self.now.entries ≡ other.now.entries }
    {
        let _begins = self.begins(other);
    }

    /// The longer of two fronts of the same history.
    pub fn longer(&self, other: &Front) -> Front
        requires { self.now.house ≡ other.now.house }
        ensures house { result.house ≡ self.now.house }
        ensures this { IsPrefix self.now.entries result.entries }
        ensures that { IsPrefix other.now.entries result.entries }
        ensures one { (result.entries ≡ self.now.entries) ⊎ (result.entries ≡ other.now.entries) }
    {
        if self.begins(other) {
            other.copied()
        } else {
            self.copied()
        }
    }
}
