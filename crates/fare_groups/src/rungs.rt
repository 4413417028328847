//! The cheapest fares of a group by classes.
ghost use Rattle.std.specs.Prelude.{◌≡◌, ◌≤◌, [], map, IfOk, OnOk};
ghost use Rattle.fare_groups.specs.Grouping.{AreCheapestFirst, AreFirsts, AreOneClass, AreRungs, first_share, rung_of};
ghost use Rattle.fare_law.specs.Lists.{Each};

use crate::GroupedFare;
use fare_law::{List, Mem};
use std::alloc::Global;

/// The least share of a group's fares of a class.
#[derive(Clone, Copy)]
pub struct Rung {
    pub share: u64,
    /// The class, as a set of one: bit c for class c.
    pub class: u32,
}

/// The least share of each class of some fares, by shares.
pub fn rungs_of(alloc: Global, fares: &[GroupedFare]) -> Result<List<Rung>, Mem>
    requires low { Each (λ f. f.class ≤ 25) fares.now }
    requires order { AreCheapestFirst fares.now }
    ensures { IfOk result (AreRungs fares.now) }
{
    let all = all_rungs(alloc, fares)?;
    firsts_of(alloc, all.as_slice())
}

/// Each fare as a rung.
fn all_rungs(alloc: Global, fares: &[GroupedFare]) -> Result<Vec<Rung>, Mem>
    requires { Each (λ f. f.class ≤ 25) fares.now }
    ensures { IfOk result (λ all. all.items ≡ map rung_of fares.now) }
{
    let mut all = Vec::with_capacity(alloc, fares.len())?;
    for fare in fares {
        all.push(rung_of(fare))?;
    }
    Ok(all)
}

/// A fare as a rung.
fn rung_of(fare: &GroupedFare) -> Rung
    requires { fare.now.class ≤ 25 }
    ensures { result ≡ rung_of fare.now }
{
    Rung {
        share: fare.share,
        class: 1 << fare.class,
    }
}

/// The first of each class of some rungs.
fn firsts_of(alloc: Global, all: &[Rung]) -> Result<List<Rung>, Mem>
    requires { AreOneClass all.now }
    ensures { IfOk result (AreFirsts all.now) }
{
    let mut firsts = List::new(alloc);
    let mut seen = 0;
    for rung in all {
        if seen & rung.class == 0 {
            seen |= rung.class;
            firsts.push(*rung)?;
        }
    }
    Ok(firsts)
}

/// The share of the first rung of one of these classes, bit c for class c.
#[inline]
pub fn first_share(rungs: &[Rung], classes: u32) -> Option<u64>
    ensures { result ≡ first_share rungs.now classes }
{
    for rung in rungs {
        if classes & rung.class != 0 {
            return Some(rung.share);
        }
    }
    None
}
