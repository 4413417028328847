//! Room for the actions of a filing.
ghost use Rattle.std.specs.Prelude.{◌≡◌, [], IfOk};

use fare_law::{Action, List, Mem};
use std::alloc::Global;

/// An empty list with room for so many actions, so that none of them is moved as the list grows.
pub fn room_for(alloc: Global, count: usize) -> Result<List<Action>, Mem>
    ensures { IfOk result (λ actions. actions ≡ []) }
{
    Ok(List::from_vec(Vec::with_capacity(alloc, count)?))
}
