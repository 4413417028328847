//! One cell of a store.
ghost use Rattle.std.specs.Prelude.{◌≡◌, MatchResult, Some};
ghost use Rattle.once_cell.specs.Once.{Agrees, cell_name};

use crate::Node;
use fare_law::Mem;
use once_cell::race::{Note, OnceBox};
use std::alloc::Global;

/// Sets the cell to a copy of the node where it isn't set, and gives what stands there.
pub fn settle<'a>(
    alloc: Global,
    cell: &'a OnceBox<Node>,
    note: &mut Note<Node>,
    node: &Node,
) -> Result<&'a Node, Mem>
    requires { note.old.cell ≡ cell_name cell.now }
    ensures cell { note.new.cell ≡ note.old.cell }
    ensures value { MatchResult result (λ r. (note.new.known ≡ Some r.now) × Agrees note.old.known r.now) (λ _. note.new.known ≡ note.old.known) }
{
    cell.get_or_try_init_as(|| boxed(alloc, node), note)
}

fn boxed(alloc: Global, node: &Node) -> Result<Box<Node>, Mem> {
    Ok(Box::new(alloc, node.copy()?)?)
}
