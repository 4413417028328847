//! The groups of fares with which moves on the paths of a class may be within the limit.
ghost use Rattle.std.specs.Prelude.{◌≡◌, ◌↔◌, ◌≤◌, IsTrue, OnOk};
ghost use Rattle.cheap_moves.specs.Prospects.{AreOnce, IsPut, code_of, prospect_of};
ghost use Rattle.fare_law.specs.Lists.{IsIn};

use fare_groups::GroupKey;
use fare_law::{FareKind, List, Mem};
use outlines::Outline;
use std::alloc::Global;

/// A group of fares by its key, and whether they are filed from a path's end to its beginning.
#[derive(Clone, Copy)]
pub struct Prospect {
    pub key: GroupKey,
    pub reverse: bool,
}

impl Prospect {
    /// Whether it is the same group.
    fn is(self, other: Prospect) -> bool
        ensures { IsTrue result ↔ (self ≡ other) }
    {
        self.key.is(other.key) && self.reverse == other.reverse
    }

    /// A number by which groups are put in order.
    pub fn code(self) -> u32
        ensures { result ≡ code_of self }
    {
        let kind = match self.key.kind {
            FareKind::O => 0,
            FareKind::R => 1,
            FareKind::S => 2,
        };
        u32::from(self.key.number) * 8 + kind * 2 + u32::from(self.reverse)
    }
}

/// Groups, each once. None has a greater code than is noted.
#[derive(Drop)]
pub struct Prospects {
    pub groups: List<Prospect>,
    greatest: u32,
}

impl Prospects {
    /// None.
    pub fn new(alloc: Global) -> Prospects
        ensures { AreOnce result }
    {
        Prospects {
            groups: List::new(alloc),
            greatest: 0,
        }
    }

    /// Adds a group, where it isn't there. Groups that come in the order of their codes aren't looked for.
    pub fn put(&mut self, group: Prospect) -> Result<(), Mem>
        ensures { OnOk result (IsPut group self.old self.new) }
    {
        let code = group.code();
        if code <= self.greatest && is_among(group, self.groups.as_slice()) {
            return Ok(());
        }
        self.groups.push(group)?;
        self.greatest = greater(self.greatest, code);
        Ok(())
    }
}

/// The group of the fares that an outline's components have.
pub fn prospect_of(outline: &Outline) -> Prospect
    ensures { result ≡ prospect_of outline.now }
{
    Prospect {
        key: GroupKey {
            carrier: outline.carrier,
            number: outline.number,
            kind: outline.kind,
        },
        reverse: outline.reverse,
    }
}

/// The greater of two numbers.
fn greater(one: u32, other: u32) -> u32
    ensures one { one ≤ result }
    ensures other { other ≤ result }
{
    if one < other { other } else { one }
}

/// Whether a group is one of these.
fn is_among(prospect: Prospect, prospects: &[Prospect]) -> bool
    ensures { IsTrue result ↔ IsIn prospect prospects.now }
{
    for other in prospects {
        if prospect.is(*other) {
            return true;
        }
    }
    false
}
