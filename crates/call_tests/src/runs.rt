//! The least runs of a graph of switches.
ghost use Rattle.std.specs.Prelude.{◌≡◌, ⊤, IfOk};
ghost use Rattle.call_tests.specs.Switches.{HasSwitch, switch};

use best_steps::{Step, Steps, best_steps};
use fare_law::{List, Mem};
use std::alloc::Global;
use std::test::Fail;

/// Seven nodes. At each of them a switch is left off, or put on for 1; then comes the node below.
#[derive(Drop)]
struct Switches;

/// The step of a node by this digit.
fn switch_by(alloc: Global, node: u64, digit: u64) -> Result<Step, Mem>
    ensures { IfOk result (λ step. step ≡ switch node digit) }
{
    let mut word = List::new(alloc);
    word.push(digit)?;
    let next = if node == 0 { None } else { Some(node - 1) };
    Ok(Step {
        price: digit,
        total: digit,
        word,
        next,
    })
}

impl Steps for Switches {
    ghost has = { λ s. HasSwitch };

    ghost nodes = { λ s. 7 };

    ghost level = { λ s n. n };

    ghost ready = { λ s. ⊤ };

    ghost later = { λ s t. ⊤ };

    fn first_steps(&mut self, alloc: Global, node: u64, wanted: usize) -> Result<List<Step>, Mem> {
        let off = switch_by(alloc, node, 0)?;
        let on = switch_by(alloc, node, 1)?;
        let mut both = Vec::new(alloc);
        both.push(off)?;
        both.push(on)?;
        both.truncate(wanted);
        Ok(List::from_vec(both))
    }

    ghost unasked = { λ s. tt };

    ghost still_ready = { λ s t l r. tt };

    ghost further = { λ s t u l m. tt };
}

/// The prices of the `k` least runs from a node of `Switches`, and their words joined.
#[tactic(auto, using(crate::proofs::SwitchLaws::switch_laws))]
fn least(alloc: Global, (node, k): (u64, u32)) -> Result<(Vec<u64>, Vec<u64>), Fail> {
    if node >= 7 {
        return Err(Fail::new("no such node"));
    }
    let mut prices = Vec::new(alloc);
    let mut words = Vec::new(alloc);
    for run in best_steps(alloc, &mut Switches, node, k)?.as_slice() {
        prices.push(run.price)?;
        words.extend_from_slice(run.word.as_slice())?;
    }
    Ok((prices, words))
}

/// Whether these are the prices and joined words of the `k` least runs.
fn are_least(alloc: Global, of: (u64, u32), expected: (&[u64], &[u64])) -> Result<bool, Fail> {
    let (prices, words) = least(alloc, of)?;
    Ok(prices.as_slice() == expected.0 && words.as_slice() == expected.1)
}

/// The words of all runs of three switches, from the least to the greatest price.
const EIGHT_WORDS: [u64; 24] = [
    0, 0, 0, 0, 0, 1, 0, 1, 0, 1, 0, 0, 0, 1, 1, 1, 0, 1, 1, 1, 0, 1, 1, 1,
];

/// Whether the least runs are told of one switch, fewer than asked for; of two, with ties in the order of their words; of all of
/// three switches; and of seven, none asked for.
fn all_least(alloc: Global) -> Result<[bool; 4], Fail> {
    Ok([
        are_least(alloc, (0, 3), (&[0, 1], &[0, 1]))?,
        are_least(alloc, (1, 3), (&[0, 1, 1], &[0, 0, 0, 1, 1, 0]))?,
        are_least(alloc, (2, 8), (&[0, 1, 1, 1, 2, 2, 2, 3], &EIGHT_WORDS))?,
        are_least(alloc, (6, 0), (&[], &[]))?,
    ])
}

#[test]
fn least_of_switches(rt: HostRuntime) -> Result<(), Fail> {
    assert_eq!(rt; all_least(rt.alloc())?, [true; 4]);
    Ok(())
}
