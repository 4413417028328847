//! Elements of a table, each with its number.
ghost use Rattle.std.specs.Prelude.{◌≡◌, ◌<◌, ◌≤◌, IfOk, Some, length, slice_get, true};
ghost use Rattle.residual_table.specs.Keys.{IsAdded};

use fare_law::Mem;
use indexmap::IndexSet;
use std::hash::Hash;

/// The most elements of a table: each number fits a `u32`, and so does one more.
const MOST: usize = 4_294_967_295;

/// The number of an element, which it gets where it has none. `Mem` is want of memory, or of a number.
pub fn add<T: Hash + Eq + Copy>(table: &mut IndexSet<T>, element: T) -> Result<u32, Mem>
    ensures added { IsAdded T.eq table.old.keys element table.new.keys }
    ensures number { IfOk result (λ n. (k : T) × (slice_get table.new.keys n ≡ Some k) × (T.eq element k ≡ true)) }
    ensures small { IfOk result (λ n. n < 4294967295) }
    ensures few { length table.old.keys ≤ 4294967295 → length table.new.keys ≤ 4294967295 }
{
    if table.len() >= MOST {
        return Err(Mem);
    }
    let (number, _) = table.insert_full(element)?;
    Ok(number as u32)
}
