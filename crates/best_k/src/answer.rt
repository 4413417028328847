//! The k least derivations of a node.
ghost use Rattle.std.specs.Prelude.{◌≡◌, ◌<◌, ◌≤◌, ◌+◌, IfOk, length};
ghost use Rattle.best_k.specs.Derivations.{BestDerivations};
ghost use Rattle.best_k.specs.Ranked.{AreFirstDerivations};
ghost use Rattle.best_k.specs.Tables.{count};
ghost use Rattle.best_k.specs.Drawing.{AreDrawn, IsTable, IsTableOf};

use crate::draws::draw_to;
use crate::fresh::least_ways;
use crate::lattice::{Derivation, Lattice};
use crate::table::{Progress, Stage, drawn_at};
use crate::words::word_of;
use fare_law::{List, Mem};
use std::alloc::Global;

/// The nodes up to this one, with this many of its ways drawn, or all of them.
fn drawn_table<L: Lattice>(
    alloc: Global,
    lattice: &L,
    node: u64,
    wanted: usize,
) -> Result<Vec<Progress>, Mem>
    requires { node < (L.shape lattice.now).nodes }
    ensures table { IfOk result (λ table. IsTableOf (L.shape lattice.now) table.items (node + 1)) }
    ensures drawn { IfOk result (λ table. AreDrawn (L.shape lattice.now) table.items node wanted) }
{
    let mut table = least_ways(alloc, lattice, node)?;
    for rank in 1..wanted {
        if let Stage::Spent = table[node as usize].stage {
            return Ok(table);
        }
        draw_to(alloc, lattice, &mut table, node, rank)?;
    }
    Ok(table)
}

/// The derivations of this many first ways of a node.
fn first_derivations<L: Lattice>(
    alloc: Global,
    lattice: &L,
    table: &[Progress],
    node: u64,
    wanted: usize,
) -> Result<List<Derivation>, Mem>
    requires node { node < (L.shape lattice.now).nodes }
    requires table { IsTable (L.shape lattice.now) table.now (node + 1) }
    requires drawn { wanted ≤ count table.now node }
    ensures length { IfOk result (λ found. length found ≡ wanted) }
    ensures first { IfOk result (AreFirstDerivations (L.shape lattice.now) node) }
{
    let mut found = List::new(alloc);
    for rank in 0..wanted {
        let way = drawn_at(table, node, rank);
        let word = word_of(lattice, table, node, &way);
        found.push(Derivation {
            price: way.price,
            word,
        })?;
    }
    Ok(found)
}

/// The `k` least derivations of a node, ascending by price and then word; all of them where there are
/// fewer. Words compare number by number. It takes memory for each node up to this one, and answers `Mem`
/// only for want of it.
pub fn best<L: Lattice>(
    alloc: Global,
    lattice: &L,
    node: u64,
    k: u32,
) -> Result<List<Derivation>, Mem>
    requires { node < (L.shape lattice.now).nodes }
    ensures { IfOk result (BestDerivations (L.shape lattice.now) node k) }
{
    let table = drawn_table(alloc, lattice, node, k as usize)?;
    let wanted = table[node as usize].drawn.len().min(k as usize);
    let found = first_derivations(alloc, lattice, table.as_slice(), node, wanted)?;
    Ok(found)
}
