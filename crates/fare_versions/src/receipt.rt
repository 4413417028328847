//! Receipts: what a clerk had published.
ghost use Rattle.std.specs.Prelude.{◌≡◌, ◌≤◌, length};
ghost use Rattle.fare_law.specs.declared.limits.TheConstants.{MOST_ENTRIES};

use crate::Front;
use std::marker::Model;

/// What was filed with a house when it was made. A clerk alone makes receipts; they may go to other threads.
#[derive(Drop)]
pub struct Receipt {
    front: Front,
}

impl Model for Receipt {
    ghost use Rattle.std.specs.Prelude.{◌≤◌, length};
    ghost use Rattle.fare_law.specs.declared.limits.TheConstants.{MOST_ENTRIES};
    ghost use Rattle.fare_versions.specs.Histories.{HouseHistory};

    ghost Value = { HouseHistory };

    ghost view = { λ r. r.front };

    ghost invariant = { λ r. length r.front.entries ≤ MOST_ENTRIES };
}

impl Receipt {
    pub(crate) fn of(front: Front) -> Receipt
        requires { length front.entries ≤ MOST_ENTRIES }
        ensures { result ≡ front }
    {
        Receipt { front }
    }

    /// The number of the version that it is for: how many filings it has.
    pub fn number(&self) -> u32
        ensures value { result ≡ length self.now.entries }
        ensures few { result ≤ MOST_ENTRIES }
    {
        self.front.count() as u32
    }

    /// What was filed.
    pub(crate) fn front(&self) -> &Front
        ensures value { result.now ≡ self.now }
        ensures few { length self.now.entries ≤ MOST_ENTRIES }
    {
        &self.front
    }
}
