//! The least derivations of two small lattices.
ghost use Rattle.std.specs.Prelude.{◌≡◌, ◌∷◌, []};
ghost use Rattle.best_k.specs.Examples.{doubling, sparse};
ghost use Rattle.best_k.specs.ExampleLaws.{doubling_laws, sparse_laws};

use best_k::{Choice, Lattice, best};
use fare_law::Code;
use std::alloc::Global;
use std::test::Fail;

fn word(number: u64) -> Code
    ensures { result ≡ number ∷ [] }
{
    let mut word = Code::new();
    word.push(number);
    word
}

/// Seven nodes. Node 0 has two leaves, and each later node has one pair of the node before it with itself.
#[derive(Drop)]
struct Doubling;

impl Lattice for Doubling {
    ghost shape = { λ l. doubling };

    ghost laws = { λ l. doubling_laws };

    fn nodes(&self) -> u64 {
        7
    }

    fn choices(&self, node: u64) -> u64 {
        if node == 0 { 2 } else { 1 }
    }

    fn choice(&self, node: u64, at: u64) -> Choice {
        if node > 0 {
            Choice::Pair {
                first: node - 1,
                rest: Some(node - 1),
            }
        } else if at == 0 {
            Choice::Leaf {
                price: 5,
                word: word(1),
            }
        } else {
            Choice::Leaf {
                price: 3,
                word: word(2),
            }
        }
    }
}

/// Two nodes. Node 0 has one leaf, and node 1 has no choices.
#[derive(Drop)]
struct Sparse;

impl Lattice for Sparse {
    ghost shape = { λ l. sparse };

    ghost laws = { λ l. sparse_laws };

    fn nodes(&self) -> u64 {
        2
    }

    fn choices(&self, node: u64) -> u64 {
        if node == 0 { 1 } else { 0 }
    }

    fn choice(&self, _node: u64, _at: u64) -> Choice {
        Choice::Leaf {
            price: 4,
            word: word(7),
        }
    }
}

/// The prices of the `k` least derivations of a node of `Doubling`, and their words joined, each of `length` numbers.
fn least(
    alloc: Global,
    (node, k, length): (u64, u32, usize),
) -> Result<(Vec<u64>, Vec<u64>), Fail> {
    if node >= 7 {
        return Err(Fail::new("no such node"));
    }
    let mut prices = Vec::new(alloc);
    let mut words = Vec::new(alloc);
    for derivation in best(alloc, &Doubling, node, k)?.as_slice() {
        if derivation.word.len() != length {
            return Err(Fail::new("a word of another length"));
        }
        prices.push(derivation.price)?;
        words.extend_from_slice(derivation.word.as_slice())?;
    }
    Ok((prices, words))
}

/// Whether these are the prices and joined words of the `k` least derivations.
fn are_least(
    alloc: Global,
    of: (u64, u32, usize),
    expected: (&[u64], &[u64]),
) -> Result<bool, Fail> {
    let (prices, words) = least(alloc, of)?;
    Ok(prices.as_slice() == expected.0 && words.as_slice() == expected.1)
}

/// The word of the second of 2^64 derivations, after that of the first one.
fn twos_then_one_first() -> [u64; 128] {
    let mut words = [2; 128];
    words[64] = 1;
    words
}

/// Whether the least derivations are told of leaves, fewer than asked for; of pairs, with a tie; of 2^64 derivations, of which two are
/// asked for; of as many and none asked for; and of a node without choices.
fn all_least(alloc: Global) -> Result<[bool; 5], Fail> {
    let words = twos_then_one_first();
    Ok([
        are_least(alloc, (0, 3, 1), (&[3, 5], &[2, 1]))?,
        are_least(alloc, (1, 3, 2), (&[6, 8, 8], &[2, 2, 1, 2, 2, 1]))?,
        are_least(alloc, (6, 2, 64), (&[192, 194], &words))?,
        are_least(alloc, (6, 0, 64), (&[], &[]))?,
        has_none(alloc)?,
    ])
}

fn has_none(alloc: Global) -> Result<bool, Fail> {
    Ok(best(alloc, &Sparse, 1, 3)?.as_slice().is_empty())
}

#[test]
fn draws_the_least(rt: HostRuntime) -> Result<(), Fail> {
    assert_eq!(rt; all_least(rt.alloc())?, [true; 5]);
    Ok(())
}
