//! Bounds of rows by their keys.
ghost use Rattle.std.specs.Cmp.{IsEquivalence};
ghost use Rattle.std.specs.List.{IsDistinct};
ghost use Rattle.std.specs.Map.{keys_of, lookup};
ghost use Rattle.std.specs.Prelude.{◌≡◌, ◌<◌, IfOk, IfSome, Some, length, option_and_then, option_map, slice_get};
ghost use Rattle.certificate.specs.NumberedRows.{key_of};
ghost use Rattle.certificate_check.specs.Tables.{IsPlaced, entries_of};

use crate::places::Places;
use certificate::NumberedRow;
use fare_law::Mem;
use residual_table::ResidualKey;
use search_steps::Bounds;
use std::alloc::Global;
use std::marker::Model;

/// Rows by numbers whose keys differ, and where they stand.
#[derive(Drop)]
pub struct RowBounds<'c> {
    rows: &'c [NumberedRow],
    places: Places,
}

impl<'c> Model for RowBounds<'c> {
    ghost use Rattle.std.specs.List.{IsDistinct};
    ghost use Rattle.std.specs.Map.{keys_of};
    ghost use Rattle.std.specs.Prelude.{List as Items, Option, ℕ};
    ghost use Rattle.certificate_check.specs.Tables.{entries_of};
    ghost use Rattle.residual_table.specs.declared.key.ResidualKey.{ResidualKey as AnyKey};

    ghost Value = { Items (AnyKey × Option ℕ) };

    ghost view = { λ b. entries_of b.rows.now };

    ghost invariant = { λ b. IsDistinct ⟦<ResidualKey as PartialEq>⟧.eq (keys_of (entries_of b.rows.now)) };
}

impl<'c> RowBounds<'c> {
    /// Of rows whose keys differ.
    pub fn of(alloc: Global, rows: &'c [NumberedRow]) -> Result<RowBounds<'c>, Mem>
        requires { IsDistinct ⟦<ResidualKey as PartialEq>⟧.eq (keys_of (entries_of rows.now)) }
        ensures { IfOk result (λ bounds. bounds ≡ entries_of rows.now) }
    {
        let places = Places::of(alloc, rows)?;
        Ok(RowBounds { rows, places })
    }

    /// The key of the row at a place.
    pub fn key(&self, place: usize) -> ResidualKey
        requires { place < length self.now }
        ensures { option_map (λ entry. entry.0) (slice_get self.now place) ≡ Some result }
    {
        key_at(self.rows, place)
    }

    /// The bound of a key.
    pub fn get(&self, key: ResidualKey) -> Option<Option<u64>>
        ensures { result ≡ lookup (⟦<ResidualKey as PartialEq>⟧.eq key) self.now }
    {
        keys_equivalence::<ResidualKey>();
        let RowBounds { rows, places } = self;
        if let Some(bound) = guess(rows, places, &key) {
            return Some(bound);
        }
        bound_in(rows, key)
    }
}

impl<'c> Bounds for RowBounds<'c> {
    ghost bound = { λ bounds key. option_and_then (λ bound. bound) (lookup (⟦<ResidualKey as PartialEq>⟧.eq key) bounds) };

    fn bound_of(&self, key: ResidualKey) -> Option<u64> {
        self.get(key).flatten()
    }
}

// The key of the row at a place.
fn key_at(rows: &[NumberedRow], place: usize) -> ResidualKey
    requires { place < length rows.now }
    ensures { option_map (λ row. key_of row) (slice_get rows.now place) ≡ Some result }
{
    rows[place].key()
}

// The bound of a key where it stands in a likely place.
fn guess(rows: &[NumberedRow], places: &Places, key: &ResidualKey) -> Option<Option<u64>>
    ensures { IfSome result (IsPlaced ⟦<ResidualKey as PartialEq>⟧.eq key.now (entries_of rows.now)) }
{
    let mut walk = places.walk(key)?;
    for _ in 0..walk.count() {
        let place = places.at(&walk)?;
        if let Some(bound) = bound_at(rows, place, key) {
            return Some(bound);
        }
        walk.go_on();
    }
    None
}

// The bound of a key where it stands at a place.
fn bound_at(rows: &[NumberedRow], place: usize, key: &ResidualKey) -> Option<Option<u64>>
    ensures { IfSome result (IsPlaced ⟦<ResidualKey as PartialEq>⟧.eq key.now (entries_of rows.now)) }
{
    let row = rows.get(place)?;
    if *key == row.key() {
        return Some(row.bound());
    }
    None
}

// The bound of a key in a list.
fn bound_in(rows: &[NumberedRow], key: ResidualKey) -> Option<Option<u64>>
    ensures { result ≡ lookup (⟦<ResidualKey as PartialEq>⟧.eq key) (entries_of rows.now) }
{
    for row in rows {
        if key == row.key() {
            return Some(row.bound());
        }
    }
    None
}

// The test of keys is an equivalence.
fn keys_equivalence<K: Eq>()
    ensures { IsEquivalence K.eq }
{}
