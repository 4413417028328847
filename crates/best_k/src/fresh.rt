//! The least way of each node, found from the bottom up in one pass.
ghost use Rattle.std.specs.Prelude.{◌<◌, ◌+◌, IfOk, IfSome};
ghost use Rattle.best_k.specs.Tables.{Usable};
ghost use Rattle.best_k.specs.Drawing.{IsLeastWay, IsLesserWay, IsProgress, IsTable, IsTableOf};

use crate::lattice::Lattice;
use crate::table::{Progress, Stage, Way, way_at};
use crate::words::comes_before;
use fare_law::Mem;
use std::alloc::Global;

/// The lesser of two ways of a node, where there are two.
fn lesser_way<L: Lattice>(
    lattice: &L,
    table: &[Progress],
    node: u64,
    least: Option<Way>,
    way: Way,
) -> Way
    requires node { node < (L.shape lattice.now).nodes }
    requires table { IsTable (L.shape lattice.now) table.now node }
    requires least { IfSome least (Usable (L.shape lattice.now) table.now node) }
    requires way { Usable (L.shape lattice.now) table.now node way }
    ensures { IsLesserWay (L.shape lattice.now) node least way result }
{
    match least {
        None => way,
        Some(other) => {
            if comes_before(lattice, table, node, &way, &other) {
                way
            } else {
                other
            }
        }
    }
}

/// The least way of a node, from the least ways of the nodes below it.
fn least_way<L: Lattice>(lattice: &L, table: &[Progress], node: u64) -> Option<Way>
    requires node { node < (L.shape lattice.now).nodes }
    requires table { IsTable (L.shape lattice.now) table.now node }
    ensures { IsLeastWay (L.shape lattice.now) table.now node result }
{
    let mut least: Option<Way> = None;
    for at in 0..lattice.choices(node) {
        if let Some(way) = way_at(lattice, table, node, at, 0, 0) {
            least = Some(lesser_way(lattice, table, node, least, way));
        }
    }
    least
}

/// A node of which the least way is drawn, where there is one.
fn fresh_progress<L: Lattice>(
    alloc: Global,
    lattice: &L,
    table: &[Progress],
    node: u64,
) -> Result<Progress, Mem>
    requires node { node < (L.shape lattice.now).nodes }
    requires table { IsTable (L.shape lattice.now) table.now node }
    ensures { IfOk result (IsProgress (L.shape lattice.now) table.now node) }
{
    let queue = Vec::new(alloc);
    match least_way(lattice, table, node) {
        Some(way) => {
            let mut drawn = Vec::with_capacity(alloc, 1)?;
            drawn.push(way)?;
            Ok(Progress {
                drawn,
                queue,
                stage: Stage::Fresh,
            })
        }
        None => Ok(Progress {
            drawn: Vec::new(alloc),
            queue,
            stage: Stage::Spent,
        }),
    }
}

/// The nodes up to this one, each with its least way.
pub fn least_ways<L: Lattice>(alloc: Global, lattice: &L, node: u64) -> Result<Vec<Progress>, Mem>
    requires { node < (L.shape lattice.now).nodes }
    ensures { IfOk result (λ table. IsTableOf (L.shape lattice.now) table.items (node + 1)) }
{
    let mut table: Vec<Progress> = Vec::new(alloc);
    for below in 0..node {
        let fresh = fresh_progress(alloc, lattice, table.as_slice(), below)?;
        table.push(fresh)?;
    }
    let fresh = fresh_progress(alloc, lattice, table.as_slice(), node)?;
    table.push(fresh)?;
    Ok(table)
}
