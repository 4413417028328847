//! Outlines by numbers, so that tables are merged by them.
ghost use Rattle.std.specs.Prelude.{◌≡◌, ◌↔◌, ◌<◌, ◌≤◌, [], IfOk, IfSome, IsTrue, Some, length};
ghost use Rattle.fare_law.specs.Book.{Book as Version, live_rule};
ghost use Rattle.fare_law.specs.Lists.{Each, IsPrefix};
ghost use Rattle.outline_tables.specs.declared.outline_numbers.Priced.{Priced as OnePrice};
ghost use Rattle.outline_tables.specs.Numbers.{AreRuled, OutlineStands, entries_of};

use crate::outline_places::{OutlinePlaces, is_empty, number_in};
use fare_ends::same_after;
use fare_law::{FareKind, List, Mem, Rule, Shared};
use outlines::{Entry, Outline};
use std::alloc::Global;

/// An outline with its rule.
#[derive(Drop)]
pub struct RuledOutline {
    pub outline: Outline,
    pub rule: Shared<Rule>,
}

/// An outline by its number, with a price.
#[derive(Clone, Copy)]
pub struct Priced {
    pub outline: usize,
    pub price: u64,
}

/// The outlines that were met so far.
#[derive(Drop)]
pub struct OutlineNumbers {
    /// Where an outline may stand.
    pub places: OutlinePlaces,
    pub of: Vec<RuledOutline>,
}

impl OutlineNumbers {
    /// None yet.
    pub fn new(alloc: Global) -> OutlineNumbers
        ensures { result.of.items ≡ [] }
    {
        OutlineNumbers {
            places: OutlinePlaces::new(alloc),
            of: Vec::new(alloc),
        }
    }

    /// The number of an outline, which leads to the position of a number.
    pub fn find(
        &mut self,
        outline: &Outline,
        after: usize,
        rule: &Shared<Rule>,
    ) -> Result<usize, Mem>
        ensures grows { IsPrefix self.old.of.items self.new.of.items }
        ensures ruled { (b : Version) → live_rule b outline.now.carrier outline.now.number ≡ Some rule.now → AreRuled b self.old.of.items → AreRuled b self.new.of.items }
        ensures found { IfOk result (OutlineStands self.new.of.items outline.now) }
    {
        let mark = mark_of(outline, after);
        match known(self.of.as_slice(), &self.places, mark, outline) {
            Some(number) => Ok(number),
            None => self.add(outline, mark, rule),
        }
    }

    /// Adds an outline.
    fn add(&mut self, outline: &Outline, mark: u32, rule: &Shared<Rule>) -> Result<usize, Mem>
        ensures grows { IsPrefix self.old.of.items self.new.of.items }
        ensures ruled { (b : Version) → live_rule b outline.now.carrier outline.now.number ≡ Some rule.now → AreRuled b self.old.of.items → AreRuled b self.new.of.items }
        ensures found { IfOk result (OutlineStands self.new.of.items outline.now) }
    {
        let number = self.of.len();
        let rule = rule.share()?;
        self.places.put(mark, number)?;
        self.of.push(RuledOutline {
            outline: *outline,
            rule,
        })?;
        Ok(number)
    }

    /// How many there are.
    pub fn len(&self) -> usize
        ensures { result ≡ length self.now.of.items }
    {
        self.of.len()
    }

    /// The entries of these outlines and prices.
    pub fn entries(&self, alloc: Global, priced: &[Priced]) -> Result<List<Entry>, Mem>
        requires { Each (λ (p : OnePrice). p.outline < length self.now.of.items) priced.now }
        ensures { IfOk result (λ entries. entries ≡ entries_of self.now.of.items priced.now) }
    {
        let mut entries = Vec::with_capacity(alloc, priced.len())?;
        for one in priced {
            let ruled = &self.of[one.outline];
            entries.push(Entry {
                outline: ruled.outline,
                rule: ruled.rule.share()?,
                price: one.price,
            })?;
        }
        Ok(List::from_vec(entries))
    }
}

/// The number of an outline of a mark, if it is known.
fn known(of: &[RuledOutline], places: &OutlinePlaces, mark: u32, outline: &Outline) -> Option<usize>
    ensures { IfSome result (OutlineStands of.now outline.now) }
{
    for step in 0..places.room() {
        let slot = places.slot(mark, step);
        if is_empty(slot) {
            return None;
        }
        if let Some(number) = known_in(of, slot, mark, outline) {
            return Some(number);
        }
    }
    None
}

/// The number in a slot, if it is an outline's of a mark.
fn known_in(of: &[RuledOutline], slot: u64, mark: u32, outline: &Outline) -> Option<usize>
    ensures { IfSome result (OutlineStands of.now outline.now) }
{
    let number = number_in(slot, mark)?;
    let ruled = of.get(number)?;
    if is_same(&ruled.outline, outline) {
        Some(number)
    } else {
        None
    }
}

/// Whether the outlines are one.
fn is_same(one: &Outline, other: &Outline) -> bool
    ensures { IsTrue result ↔ (one.now ≡ other.now) }
{
    same_after(&one.after, &other.after) && is_same_way(one, other) && is_same_fare(one, other)
}

fn is_same_way(one: &Outline, other: &Outline) -> bool
    ensures { IsTrue result ↔ ((one.now.end ≡ other.now.end) × (one.now.first ≡ other.now.first) × (one.now.last ≡ other.now.last)) }
{
    one.end.is(other.end) && one.first == other.first && one.last == other.last
}

fn is_same_fare(one: &Outline, other: &Outline) -> bool
    ensures { IsTrue result ↔ ((one.now.carrier ≡ other.now.carrier) × (one.now.number ≡ other.now.number) × (one.now.kind ≡ other.now.kind) × (one.now.reverse ≡ other.now.reverse)) }
{
    one.carrier.is(other.carrier)
        && one.number == other.number
        && one.kind.is(other.kind)
        && one.reverse == other.reverse
}

/// The mark of an outline, which leads to the position of a number.
fn mark_of(outline: &Outline, after: usize) -> u32 {
    let [a, b, c] = outline.end.0;
    let [d, e] = outline.carrier.0;
    let [f, g] = outline.number.to_le_bytes();
    let way = kind_number(outline.kind) + if outline.reverse { 4 } else { 0 };
    let fares = u64::from_le_bytes([a, b, c, d, e, f, g, way]);
    let [h, i, j, k] = outline.first.to_le_bytes();
    let [l, m, n, o] = outline.last.to_le_bytes();
    let days = u64::from_le_bytes([h, i, j, k, l, m, n, o]);
    let mixed = spread(spread(spread(fares) ^ days) ^ after as u64);
    let [_, _, _, _, p, q, r, s] = mixed.to_le_bytes();
    u32::from_le_bytes([p, q, r, s])
}

/// A number of which each bit hangs on many of another's.
fn spread(number: u64) -> u64 {
    let product = number.wrapping_mul(0x9e37_79b9_7f4a_7c15);
    product ^ (product >> 32)
}

fn kind_number(kind: FareKind) -> u8
    ensures { result ≤ 2 }
{
    match kind {
        FareKind::O => 0,
        FareKind::R => 1,
        FareKind::S => 2,
    }
}
