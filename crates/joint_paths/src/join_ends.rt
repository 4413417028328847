//! Where the tails of a slice end for which a place has fares, and for which it has fares of a carrier. Found once for a place,
//! and once for a place and a carrier.
ghost use Rattle.std.specs.Prelude.{◌≡◌, ◌↔◌, ◌⊎◌, ◌++◌, ◌∷◌, [], IfOk, IfSome, IsTrue, OnOk};
ghost use Rattle.fare_ends.specs.Ends.{AreFareEnds, IsRange, KnowsMore, between};
ghost use Rattle.fare_ends.specs.Markets.{AreMarkets};
ghost use Rattle.fare_law.specs.Lists.{IsIn, IsPrefix};
ghost use Rattle.joint_paths.specs.JoinEnds.{AddsJoin, AddsJoins, AddsPlaceEnd, AddsPlaceEnds, AreFareJoins, AreJoinEnds, ArePlaceEnds, ArePlacesKept};

use crate::tail_classes::TailEnd;
use fare_ends::{EndKey, FareEnd, FareEnds, Markets, TableCase, has_fare};
use fare_law::{Carrier, Mem, Place};
use indexmap::IndexMap;
use std::alloc::Global;

/// What ends are looked up by.
#[derive(Clone, Copy)]
pub struct JoinKey {
    pub place: Place,
    pub carrier: Carrier,
}

/// An end with fares, and where the classes of tails stand that end there.
#[derive(Clone, Copy)]
pub struct JoinEnd {
    pub end: FareEnd,
    pub from: usize,
    pub to: usize,
}

/// Where ends stand.
#[derive(Clone, Copy)]
pub struct JoinRange {
    pub from: usize,
    pub to: usize,
}

/// Where the ends of a place stand.
#[derive(Clone, Copy)]
pub struct PlaceJoins {
    pub place: Place,
    pub range: JoinRange,
}

/// Where the ends of a place and a carrier stand.
#[derive(Clone, Copy)]
pub struct CarrierJoins {
    pub key: JoinKey,
    pub range: JoinRange,
}

/// The ends that were asked for so far: of places, whichever the carrier, and of places and carriers.
#[derive(Drop)]
pub struct JoinEnds {
    /// Where the ends of a place may stand, by its letters.
    pub places: IndexMap<u32, usize>,
    pub kept_places: Vec<PlaceJoins>,
    pub place_ends: Vec<TailEnd>,
    /// Where those of a place and a carrier may stand, by their letters.
    pub carriers: IndexMap<u64, usize>,
    pub kept: Vec<CarrierJoins>,
    pub ends: Vec<JoinEnd>,
}

impl JoinKey {
    /// The letters, as one number.
    fn letters(self) -> u64 {
        let [a, b, c] = self.place.0;
        let [d, e] = self.carrier.0;
        u64::from_le_bytes([a, b, c, d, e, 0, 0, 0])
    }

    /// Whether it is the same key.
    fn is(self, other: JoinKey) -> bool
        ensures { IsTrue result ↔ (self ≡ other) }
    {
        self.place.is(other.place) && self.carrier.is(other.carrier)
    }
}

impl JoinEnds {
    /// None yet.
    pub fn new(alloc: Global) -> JoinEnds
        ensures places { result.kept_places.items ≡ [] }
        ensures kept { result.kept.items ≡ [] }
    {
        JoinEnds {
            places: IndexMap::new(alloc),
            kept_places: Vec::new(alloc),
            place_ends: Vec::new(alloc),
            carriers: IndexMap::new(alloc),
            kept: Vec::new(alloc),
            ends: Vec::new(alloc),
        }
    }

    /// Where the ends of a key stand, of the tails that end at these places.
    pub fn find(
        &mut self,
        case: &TableCase<'_>,
        markets: &mut Markets,
        fares: &mut FareEnds,
        tails: &[TailEnd],
        key: JoinKey,
    ) -> Result<JoinRange, Mem>
        requires fares { AreFareEnds case.now.book.now fares.old }
        requires markets { AreMarkets case.now.book.now markets.old.kept.items }
        requires joins { AreJoinEnds case.now.book.now fares.old tails.now self.old }
        ensures fares { AreFareEnds case.now.book.now fares.new }
        ensures markets { AreMarkets case.now.book.now markets.new.kept.items }
        ensures grows { KnowsMore fares.old fares.new }
        ensures joins { AreJoinEnds case.now.book.now fares.new tails.now self.new }
        ensures ends { IfOk result (λ r. AreFareJoins case.now.book.now fares.new tails.now key r self.new.ends.items) }
    {
        match known(self.kept.as_slice(), &self.carriers, key) {
            Some(range) => Ok(range),
            None => self.add(case, markets, fares, tails, key),
        }
    }

    /// Adds the ends of a key.
    fn add(
        &mut self,
        case: &TableCase<'_>,
        markets: &mut Markets,
        fares: &mut FareEnds,
        tails: &[TailEnd],
        key: JoinKey,
    ) -> Result<JoinRange, Mem>
        requires fares { AreFareEnds case.now.book.now fares.old }
        requires markets { AreMarkets case.now.book.now markets.old.kept.items }
        requires joins { AreJoinEnds case.now.book.now fares.old tails.now self.old }
        ensures fares { AreFareEnds case.now.book.now fares.new }
        ensures markets { AreMarkets case.now.book.now markets.new.kept.items }
        ensures grows { KnowsMore fares.old fares.new }
        ensures joins { AreJoinEnds case.now.book.now fares.new tails.now self.new }
        ensures ends { IfOk result (λ r. AreFareJoins case.now.book.now fares.new tails.now key r self.new.ends.items) }
    {
        let places = self.find_place(case, tails, key.place)?;
        let from = self.ends.len();
        let there = ends_within(self.place_ends.as_slice(), places);
        add_ends(case, markets, fares, there, key, &mut self.ends)?;
        let to = self.ends.len();
        let range = JoinRange { from, to };
        self.keep(key, range)?;
        Ok(range)
    }

    /// Keeps where the ends of a key stand.
    fn keep(&mut self, key: JoinKey, range: JoinRange) -> Result<(), Mem>
        ensures places { self.new.kept_places ≡ self.old.kept_places }
        ensures found { self.new.place_ends ≡ self.old.place_ends }
        ensures ends { self.new.ends ≡ self.old.ends }
        ensures kept { (self.new.kept.items ≡ self.old.kept.items) ⊎ (self.new.kept.items ≡ self.old.kept.items ++ record { key = key; range = range } ∷ []) }
    {
        self.carriers.insert(key.letters(), self.kept.len())?;
        self.kept.push(CarrierJoins { key, range })?;
        Ok(())
    }

    /// Where those ends stand for which a place has fares.
    fn find_place(
        &mut self,
        case: &TableCase<'_>,
        tails: &[TailEnd],
        place: Place,
    ) -> Result<JoinRange, Mem>
        requires places { ArePlacesKept case.now.book.now tails.now self.old }
        ensures places { ArePlacesKept case.now.book.now tails.now self.new }
        ensures kept { self.new.kept ≡ self.old.kept }
        ensures ends { self.new.ends ≡ self.old.ends }
        ensures found { IfOk result (λ r. ArePlaceEnds case.now.book.now tails.now place r self.new.place_ends.items) }
    {
        match known_place(self.kept_places.as_slice(), &self.places, place) {
            Some(range) => Ok(range),
            None => self.add_place(case, tails, place),
        }
    }

    /// Adds those ends for which a place has fares.
    fn add_place(
        &mut self,
        case: &TableCase<'_>,
        tails: &[TailEnd],
        place: Place,
    ) -> Result<JoinRange, Mem>
        requires places { ArePlacesKept case.now.book.now tails.now self.old }
        ensures places { ArePlacesKept case.now.book.now tails.now self.new }
        ensures kept { self.new.kept ≡ self.old.kept }
        ensures ends { self.new.ends ≡ self.old.ends }
        ensures found { IfOk result (λ r. ArePlaceEnds case.now.book.now tails.now place r self.new.place_ends.items) }
    {
        let from = self.place_ends.len();
        add_places(case, &mut self.place_ends, tails, place)?;
        let to = self.place_ends.len();
        let range = JoinRange { from, to };
        self.keep_place(place, range)?;
        Ok(range)
    }

    /// Keeps where the ends of a place stand.
    fn keep_place(&mut self, place: Place, range: JoinRange) -> Result<(), Mem>
        ensures found { self.new.place_ends ≡ self.old.place_ends }
        ensures kept { self.new.kept ≡ self.old.kept }
        ensures ends { self.new.ends ≡ self.old.ends }
        ensures places { (self.new.kept_places.items ≡ self.old.kept_places.items) ⊎ (self.new.kept_places.items ≡ self.old.kept_places.items ++ record { place = place; range = range } ∷ []) }
    {
        self.places
            .insert(letters_of(place), self.kept_places.len())?;
        self.kept_places.push(PlaceJoins { place, range })?;
        Ok(())
    }

    /// The ends that stand there.
    pub fn ends(&self, range: JoinRange) -> &[JoinEnd]
        requires { IsRange self.now.ends.items range.from range.to }
        ensures { result.now ≡ between self.now.ends.items range.from range.to }
    {
        &self.ends[range.from..range.to]
    }
}

/// Those that stand there.
fn ends_within(ends: &[TailEnd], range: JoinRange) -> &[TailEnd]
    requires { IsRange ends.now range.from range.to }
    ensures { result.now ≡ between ends.now range.from range.to }
{
    &ends[range.from..range.to]
}

/// Adds those of some ends for which the carrier of a key has fares.
fn add_ends(
    case: &TableCase<'_>,
    markets: &mut Markets,
    fares: &mut FareEnds,
    ends: &[TailEnd],
    key: JoinKey,
    found: &mut Vec<JoinEnd>,
) -> Result<(), Mem>
    requires fares { AreFareEnds case.now.book.now fares.old }
    requires markets { AreMarkets case.now.book.now markets.old.kept.items }
    ensures fares { AreFareEnds case.now.book.now fares.new }
    ensures markets { AreMarkets case.now.book.now markets.new.kept.items }
    ensures knows { KnowsMore fares.old fares.new }
    ensures grows { IsPrefix found.old.items found.new.items }
    ensures added { OnOk result (AddsJoins case.now.book.now fares.new key ends.now found.old.items found.new.items) }
{
    for end in ends {
        add_end(case, markets, fares, end, key, found)?;
    }
    Ok(())
}

/// Adds an end, if the carrier of a key has fares for it.
fn add_end(
    case: &TableCase<'_>,
    markets: &mut Markets,
    fares: &mut FareEnds,
    end: &TailEnd,
    key: JoinKey,
    found: &mut Vec<JoinEnd>,
) -> Result<(), Mem>
    requires fares { AreFareEnds case.now.book.now fares.old }
    requires markets { AreMarkets case.now.book.now markets.old.kept.items }
    ensures fares { AreFareEnds case.now.book.now fares.new }
    ensures markets { AreMarkets case.now.book.now markets.new.kept.items }
    ensures knows { KnowsMore fares.old fares.new }
    ensures grows { IsPrefix found.old.items found.new.items }
    ensures added { OnOk result (AddsJoin case.now.book.now fares.new key end.now found.old.items found.new.items) }
{
    let asked = EndKey {
        from: key.place,
        to: end.place,
        carrier: key.carrier,
    };
    let fare_end = fares.find(case, markets, asked)?;
    if fare_end.is_empty() {
        return Ok(());
    }
    found.push(JoinEnd {
        end: fare_end,
        from: end.from,
        to: end.to,
    })?;
    Ok(())
}

/// Adds those of some ends for which a place has fares.
fn add_places(
    case: &TableCase<'_>,
    found: &mut Vec<TailEnd>,
    tails: &[TailEnd],
    place: Place,
) -> Result<(), Mem>
    ensures grows { IsPrefix found.old.items found.new.items }
    ensures added { OnOk result (AddsPlaceEnds case.now.book.now tails.now place found.old.items found.new.items) }
{
    for end in tails {
        add_place_end(case, found, end, place)?;
    }
    Ok(())
}

/// Adds an end, if a place has fares for it.
fn add_place_end(
    case: &TableCase<'_>,
    found: &mut Vec<TailEnd>,
    end: &TailEnd,
    place: Place,
) -> Result<(), Mem>
    ensures grows { IsPrefix found.old.items found.new.items }
    ensures added { OnOk result (AddsPlaceEnd case.now.book.now place end.now found.old.items found.new.items) }
{
    if !has_fare(case.book, place, end.place) {
        return Ok(());
    }
    found.push(*end)?;
    Ok(())
}

/// The letters of a place, as one number.
fn letters_of(place: Place) -> u32 {
    let [a, b, c] = place.0;
    u32::from_le_bytes([a, b, c, 0])
}

/// Where the ends of a key stand, if they are known.
fn known(kept: &[CarrierJoins], carriers: &IndexMap<u64, usize>, key: JoinKey) -> Option<JoinRange>
    ensures { IfSome result (λ range. IsIn (record { key = key; range = range }) kept.now) }
{
    let at = carriers.get(&key.letters()).copied()?;
    let found = kept.get(at)?;
    if found.key.is(key) {
        Some(found.range)
    } else {
        None
    }
}

/// Where the ends of a place stand, if they are known.
fn known_place(
    kept: &[PlaceJoins],
    places: &IndexMap<u32, usize>,
    place: Place,
) -> Option<JoinRange>
    ensures { IfSome result (λ range. IsIn (record { place = place; range = range }) kept.now) }
{
    let at = places.get(&letters_of(place)).copied()?;
    let found = kept.get(at)?;
    if found.place.is(place) {
        Some(found.range)
    } else {
        None
    }
}
