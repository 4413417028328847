//! The markets of a book, each with the groups of its fares.
ghost use Rattle.std.specs.Prelude.{◌≡◌, [], IfOk, IfSome, List as Items, MatchOption, Option as Maybe};
ghost use Rattle.std.specs.Arc.{arc_value};
ghost use Rattle.fare_ends.specs.Markets.{AreMarkets, Stands, StandsAt};
ghost use Rattle.fare_book.specs.Keeping.{NoFare};
ghost use Rattle.fare_law.specs.Lists.{IsPrefix};

use fare_book::Book;
use fare_groups::{FareGroup, groups_of};
use fare_law::{List, MarketSheet, Mem, Place};
use indexmap::IndexMap;
use std::alloc::Global;
use std::sync::Arc;
use ticket_order::order_laws;

/// The ends of a market.
#[derive(Clone, Copy)]
pub struct MarketKey {
    pub from: Place,
    pub to: Place,
}

/// A market: its sheet, and the groups of the sheet's rows.
#[derive(Drop)]
pub struct Market {
    pub sheet: Arc<MarketSheet>,
    pub groups: List<FareGroup>,
}

/// The markets that were asked for so far.
#[derive(Drop)]
pub struct Markets {
    pub kept: Vec<Market>,
    /// Where a market may stand, by the letters of its ends.
    pub places: IndexMap<u64, usize>,
}

impl MarketKey {
    /// The letters, as one number.
    fn letters(self) -> u64 {
        let [a, b, c] = self.from.0;
        let [d, e, f] = self.to.0;
        u64::from_le_bytes([a, b, c, d, e, f, 0, 0])
    }
}

impl Markets {
    /// None yet.
    pub fn new(alloc: Global) -> Markets
        ensures { result.kept.items ≡ [] }
    {
        Markets {
            kept: Vec::new(alloc),
            places: IndexMap::new(alloc),
        }
    }

    /// Where the market of these ends stands. None exactly where no fare is filed from the one place to the other.
    pub fn find(&mut self, alloc: Global, book: &Book, key: MarketKey) -> Result<Option<usize>, Mem>
        requires { AreMarkets book.now self.old.kept.items }
        ensures kept { AreMarkets book.now self.new.kept.items }
        ensures grows { IsPrefix self.old.kept.items self.new.kept.items }
        ensures found { IfOk result (λ r. MatchOption r (NoFare book.now key.from key.to) (StandsAt self.new.kept.items key)) }
    {
        if let Some(at) = known(self.kept.as_slice(), &self.places, key) {
            return Ok(Some(at));
        }
        match book.sheet(key.from, key.to) {
            Some(sheet) => Ok(Some(self.add(alloc, book, key, sheet)?)),
            None => Ok(None),
        }
    }

    /// Adds the market of a sheet.
    fn add(
        &mut self,
        alloc: Global,
        book: &Book,
        key: MarketKey,
        sheet: &Arc<MarketSheet>,
    ) -> Result<usize, Mem>
        requires kept { AreMarkets book.now self.old.kept.items }
        requires sheet { Stands book.now key (arc_value sheet.now) }
        ensures kept { AreMarkets book.now self.new.kept.items }
        ensures grows { IsPrefix self.old.kept.items self.new.kept.items }
        ensures found { IfOk result (StandsAt self.new.kept.items key) }
    {
        book.limits();
        order_laws();
        let at = self.kept.len();
        let groups = groups_of(alloc, sheet.rows.as_slice())?;
        let sheet = Arc::try_clone(sheet)?;
        self.places.insert(key.letters(), at)?;
        self.kept.push(Market { sheet, groups })?;
        Ok(at)
    }
}

/// Where the market of these ends stands, if it is known.
fn known(kept: &[Market], places: &IndexMap<u64, usize>, key: MarketKey) -> Option<usize>
    ensures { IfSome result (StandsAt kept.now key) }
{
    let at = places.get(&key.letters()).copied()?;
    let market = kept.get(at)?;
    let sheet: &MarketSheet = &market.sheet;
    if sheet.from.is(key.from) && sheet.to.is(key.to) {
        Some(at)
    } else {
        None
    }
}
