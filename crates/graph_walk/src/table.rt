//! Rows of keys, each with a bound or with none, and where the row of a key stands.
ghost use Rattle.std.specs.Prelude.{◌≡◌, ◌+◌, ◌<◌, ◌^◌, ◌∷◌, ◌++◌, [], ℕ, Some, None, true, IfNone, IfOk, IfSome, IsPermutation, List as Items, OnOk, length, position, slice_index, slice_index_or};
ghost use Rattle.std.specs.List.{IsDistinct};
ghost use Rattle.std.specs.Map.{keys_of, lookup};
ghost use Rattle.indexmap.specs.IndexMap.{insert_entry};
ghost use Rattle.graph_walk.specs.Rows.{AreChained, IsAt, IsNowhere, mark_of, marks_of, spot_of, spots_of};

use std::alloc::{AllocError, Global};
use std::marker::{Model, PhantomData};

/// The most rows: one more than a place fits a `u32`.
const MOST: usize = 4_294_967_295;

/// How many spots there are at first.
const FEWEST: usize = 4_096;

/// How many rows there may be room for at first. What isn't written takes no memory.
const ROOM: usize = 1_000_000;

/// Spreads keys over numbers. Keys whose numbers are near stand near each other in a table.
pub trait Spread<K: Eq> {
    // The number of a key.
    ghost number: { K → ℕ };

    /// The number of a key.
    fn number(key: &K) -> u64
        ensures { result ≡ number key.now };

    ghost respects_eq: { (k l : K) → K.eq k l ≡ true → number k ≡ number l };
}

/// Rows in the order in which they came. Those whose keys share a spot are chained, each to the one before it.
#[derive(Drop)]
pub struct Rows<K: Eq, N: Spread<K>> {
    entries: Vec<(K, Option<u64>)>,
    /// By place, the mark of the row's key: most keys are told apart by it, without a look at the row.
    marks: Vec<u16>,
    /// By place, one more than the place of the row before it that shares its spot; 0 where there is none.
    links: Vec<u32>,
    /// By spot, one more than the place of the last row of it; 0 where there is none.
    heads: Vec<u32>,
    by: PhantomData<N>,
}

impl<K: Eq, N: Spread<K>> Model for Rows<K, N> {
    ghost use Rattle.std.specs.Prelude.{◌≡◌};
    ghost use Rattle.graph_walk.specs.Rows.{IsTable, Table, marks_of};

    ghost Value = { Table K };

    ghost view = { λ r. record { entries = r.entries.items } };

    ghost invariant = { λ r. IsTable K.eq N.number r.entries.items r.links.items r.heads.items × (r.marks.items ≡ marks_of N.number r.entries.items) };
}

impl<K: Eq + Copy, N: Spread<K>> Rows<K, N> {
    /// No rows yet, with room for so many where there is: then none is moved as they come.
    pub fn new(alloc: Global, most: u32) -> Result<Rows<K, N>, AllocError>
        ensures { IfOk result (λ rows. rows.entries ≡ []) }
    {
        let room = (most as usize).min(ROOM);
        Ok(Rows {
            entries: with_room(alloc, room),
            marks: with_room(alloc, room),
            links: with_room(alloc, room),
            heads: Vec::from_elem(alloc, 0, FEWEST)?,
            by: PhantomData,
        })
    }

    /// How many rows there are.
    pub fn len(&self) -> usize
        ensures len { result ≡ length self.now.entries }
        ensures small { result < 2 ^ 32 }
    {
        self.entries.len()
    }

    /// The rows in order.
    pub fn entries(&self) -> &[(K, Option<u64>)]
        ensures entries { result.now ≡ self.now.entries }
        ensures differ { IsDistinct K.eq (keys_of self.now.entries) }
        ensures few { length self.now.entries < 2 ^ 32 }
    {
        self.entries.as_slice()
    }

    /// The place of a key's row.
    pub fn find(&self, key: &K) -> Option<usize>
        ensures { result ≡ position (K.eq key.now) (keys_of self.now.entries) }
    {
        self.place_of(key)
    }

    /// The bound of a key; the outer None where it has no row.
    pub fn get(&self, key: &K) -> Option<Option<u64>>
        ensures { result ≡ lookup (K.eq key.now) self.now.entries }
    {
        match self.place_of(key) {
            Some(place) => Some(self.entries[place].1),
            None => None,
        }
    }

    /// Adds a row for a key that has none.
    pub fn add(&mut self, key: K, bound: Option<u64>) -> Result<(), AllocError>
        requires { lookup (K.eq key) self.old.entries ≡ None }
        ensures { OnOk result (self.new.entries ≡ self.old.entries ++ (key, bound) ∷ []) }
    {
        if self.entries.len() >= MOST {
            return Err(AllocError);
        }
        if self.entries.len() >= self.heads.len() {
            self.widen()?;
        }
        self.push(key, bound)
    }

    /// Has twice as many spots, so that few keys share one.
    fn widen(&mut self) -> Result<(), AllocError>
        ensures { self.new.entries ≡ self.old.entries }
    {
        let wide = self.heads.len().saturating_mul(2);
        self.heads.resize(wide, 0)?;
        self.heads.fill(0);
        chain::<K, N>(
            self.entries.as_slice(),
            &mut self.marks,
            &mut self.links,
            &mut self.heads,
        );
        Ok(())
    }

    /// Adds a row at the end.
    fn push(&mut self, key: K, bound: Option<u64>) -> Result<(), AllocError>
        requires few { length self.old.entries < 4294967295 }
        requires new { lookup (K.eq key) self.old.entries ≡ None }
        ensures { OnOk result (self.new.entries ≡ self.old.entries ++ (key, bound) ∷ []) }
    {
        self.links.reserve(1)?;
        self.marks.reserve(1)?;
        self.entries.reserve(1)?;
        let place = self.entries.len();
        let number = N::number(&key);
        let spot = spot_of(number, self.heads.len());
        self.links.push_reserved(0);
        self.marks.push_reserved(mark_of(number));
        self.entries.push_reserved((key, bound));
        link(&mut self.links, &mut self.heads, place, spot);
        Ok(())
    }

    /// Gives the row at a place this bound.
    pub fn set(&mut self, place: usize, bound: Option<u64>)
        requires { place < length self.old.entries }
        ensures { (key : K) → IsAt K.eq key self.old.entries place → self.new.entries ≡ insert_entry K.eq self.old.entries key bound }
    {
        let (key, _) = self.entries[place];
        self.entries[place] = (key, bound);
    }

    /// Puts the rows into another order.
    pub fn reorder(&mut self, entries: Vec<(K, Option<u64>)>)
        requires { IsPermutation self.old.entries entries.items }
        ensures entries { self.new.entries ≡ entries.items }
        ensures found { (key : K) → lookup (K.eq key) self.new.entries ≡ lookup (K.eq key) self.old.entries }
    {
        // An allocator may go on to keep blocks as large as the largest that is let go.
        self.entries.shrink_to_fit();
        self.heads.fill(0);
        chain::<K, N>(
            entries.as_slice(),
            &mut self.marks,
            &mut self.links,
            &mut self.heads,
        );
        self.entries = entries;
    }

    /// Where the row of a key stands in the chain of its spot.
    pub(crate) fn place_of(&self, key: &K) -> Option<usize>
        ensures found { IfSome result (IsAt K.eq key.now self.now.entries) }
        ensures absent { IfNone result (IsNowhere K.eq key.now self.now.entries) }
        ensures differ { IsDistinct K.eq (keys_of self.now.entries) }
    {
        let number = N::number(key);
        let mark = mark_of(number);
        let mut end = self.heads[spot_of(number, self.heads.len())];
        while end != 0 {
            let place = (end - 1) as usize;
            if self.has_key(place, key, mark) {
                return Some(place);
            }
            end = self.links[place];
        }
        None
    }

    /// Whether the row at a place has a key of this mark.
    fn has_key(&self, place: usize, key: &K, mark: u16) -> bool
        requires within { place < length self.now.entries }
        requires mark { mark ≡ mark_of (N.number key.now) }
        ensures { result ≡ K.eq key.now (slice_index_or (keys_of self.now.entries) place key.now) }
    {
        self.marks[place] == mark && *key == self.entries[place].0
    }
}

/// An empty list, with room for so many items if there is as much.
fn with_room<T>(alloc: Global, room: usize) -> Vec<T>
    ensures { result.items ≡ [] }
{
    match Vec::with_capacity(alloc, room) {
        Ok(items) => items,
        Err(_) => Vec::new(alloc),
    }
}

/// Chains all rows, where no head stands yet, and gives each place the mark of its row's key.
fn chain<K: Eq + Copy, N: Spread<K>>(
    rows: &[(K, Option<u64>)],
    marks: &mut Vec<u16>,
    links: &mut Vec<u32>,
    heads: &mut Vec<u32>,
)
    requires each { length marks.old.items ≡ length rows.now }
    requires as_many { length links.old.items ≡ length rows.now }
    requires room { 0 < length heads.old.items }
    requires few { length rows.now < 2 ^ 32 }
    requires none { AreChained (spots_of N.number (length heads.old.items) rows.now) 0 links.old.items heads.old.items }
    ensures marks { marks.new.items ≡ marks_of N.number rows.now }
    ensures as_many { length links.new.items ≡ length links.old.items }
    ensures spots { length heads.new.items ≡ length heads.old.items }
    ensures all { AreChained (spots_of N.number (length heads.new.items) rows.now) (length rows.now) links.new.items heads.new.items }
{
    for place in 0..rows.len() {
        let number = N::number(&rows[place].0);
        marks[place] = mark_of(number);
        let spot = spot_of(number, heads.len());
        link(links, heads, place, spot);
    }
}

/// Chains one more place.
fn link(links: &mut Vec<u32>, heads: &mut Vec<u32>, place: usize, spot: usize)
    requires place { place < length links.old.items }
    requires spot { spot < length heads.old.items }
    requires small { place + 1 < 2 ^ 32 }
    ensures links { length links.new.items ≡ length links.old.items }
    ensures heads { length heads.new.items ≡ length heads.old.items }
    ensures chained { (spots : Items ℕ) → slice_index spots place ≡ spot → AreChained spots place links.old.items heads.old.items → AreChained spots (place + 1) links.new.items heads.new.items }
{
    links[place] = heads[spot];
    heads[spot] = place as u32 + 1;
}

/// The spot of a number, of so many.
fn spot_of(number: u64, count: usize) -> usize
    requires { 0 < count }
    ensures value { result ≡ spot_of count number }
    ensures within { result < count }
{
    number as usize & (count - 1)
}

/// The mark of a number: some of its digits, which are mostly not those of its spot.
fn mark_of(number: u64) -> u16
    ensures { result ≡ mark_of number }
{
    (number / 65536 % 65536) as u16
}
