//! The fares of a carrier between two places, both ways, as paths ask for them: by rule and kind, with the cheapest fare of
//! each class.
ghost use Rattle.std.specs.Prelude.{◌≡◌, ◌≤◌, ◌↔◌, IfOk, IfSome, IsTrue, OnOk, [], length};
ghost use Rattle.fare_ends.specs.Ends.{AreFareEnds, HasGroupsUpTo, HasWay, IsEndGroup, IsFareEnd, IsOneOfEnd, IsRange, KeepsEnds, KnowsMore, between};
ghost use Rattle.fare_ends.specs.Markets.{AreMarkets, IsMarket};
ghost use Rattle.fare_ends.specs.Reaches.{end_from, end_to};
ghost use Rattle.fare_ends.specs.Rules.{AreKnownRules};
ghost use Rattle.fare_law.specs.Lists.{Each, IsIn, IsPrefix};
ghost use Rattle.fare_law.specs.Sheets.{SheetOf};

use crate::cases::TableCase;
use crate::filed::{Filed, filed_at};
use crate::markets::{Market, MarketKey, Markets};
use crate::rule_numbers::RuleNumbers;
use fare_groups::{FareGroup, GroupKey, Rung, first_row, rows_stand_once};
use fare_law::{Carrier, MarketSheet, Mem, Place};
use indexmap::IndexMap;
use std::alloc::Global;

/// What the fares of a carrier between two places are asked for by. They are seen from the place where a path begins.
#[derive(Clone, Copy)]
pub struct EndKey {
    pub from: Place,
    pub to: Place,
    pub carrier: Carrier,
}

/// A key, and which way fares are filed.
#[derive(Clone, Copy)]
pub struct EndWay {
    pub key: EndKey,
    /// Whether they are filed from the path's end.
    pub reverse: bool,
}

/// Where the groups of an end stand, by their rules.
#[derive(Clone, Copy)]
pub struct FareEnd {
    pub from: usize,
    pub to: usize,
}

/// An end by its key.
#[derive(Clone, Copy)]
pub struct KeptEnd {
    pub key: EndKey,
    pub end: FareEnd,
}

/// A group of fares of an end, and where its rungs stand.
#[derive(Clone, Copy)]
pub struct EndGroup {
    pub key: GroupKey,
    /// Whether it is filed from the path's end.
    pub reverse: bool,
    /// The number of its rule.
    pub rule: usize,
    pub from: usize,
    pub to: usize,
}

/// The ends that were asked for so far. The rungs of a group stand by their shares.
#[derive(Drop)]
pub struct FareEnds {
    /// Where an end may stand, by its letters.
    pub places: IndexMap<u64, usize>,
    pub ends: Vec<KeptEnd>,
    pub groups: Vec<EndGroup>,
    pub rungs: Vec<Rung>,
    pub rules: RuleNumbers,
}

impl EndKey {
    /// The letters, as one number.
    fn letters(self) -> u64 {
        let [a, b, c] = self.from.0;
        let [d, e, f] = self.to.0;
        let [g, h] = self.carrier.0;
        u64::from_le_bytes([a, b, c, d, e, f, g, h])
    }

    /// Whether it is the same key.
    fn is(self, other: EndKey) -> bool
        ensures { IsTrue result ↔ (self ≡ other) }
    {
        self.from.is(other.from) && self.to.is(other.to) && self.carrier.is(other.carrier)
    }
}

impl FareEnd {
    /// Whether no fare is filed there.
    pub fn is_empty(self) -> bool
        ensures { IsTrue result ↔ (self.to ≤ self.from) }
    {
        self.to <= self.from
    }
}

impl FareEnds {
    /// None yet.
    pub fn new(alloc: Global) -> FareEnds
        ensures ends { result.ends.items ≡ [] }
        ensures rules { result.rules.of.items ≡ [] }
    {
        FareEnds {
            places: IndexMap::new(alloc),
            ends: Vec::new(alloc),
            groups: Vec::new(alloc),
            rungs: Vec::new(alloc),
            rules: RuleNumbers::new(alloc),
        }
    }

    /// The end of a key.
    pub fn find(
        &mut self,
        case: &TableCase<'_>,
        markets: &mut Markets,
        key: EndKey,
    ) -> Result<FareEnd, Mem>
        requires ends { AreFareEnds case.now.book.now self.old }
        requires markets { AreMarkets case.now.book.now markets.old.kept.items }
        ensures ends { AreFareEnds case.now.book.now self.new }
        ensures markets { AreMarkets case.now.book.now markets.new.kept.items }
        ensures grows { KnowsMore self.old self.new }
        ensures end { IfOk result (IsFareEnd case.now.book.now key self.new) }
    {
        match known(self.ends.as_slice(), &self.places, key) {
            Some(end) => Ok(end),
            None => self.add(case, markets, key),
        }
    }

    /// Adds the end of a key.
    fn add(
        &mut self,
        case: &TableCase<'_>,
        markets: &mut Markets,
        key: EndKey,
    ) -> Result<FareEnd, Mem>
        requires ends { AreFareEnds case.now.book.now self.old }
        requires markets { AreMarkets case.now.book.now markets.old.kept.items }
        ensures ends { AreFareEnds case.now.book.now self.new }
        ensures markets { AreMarkets case.now.book.now markets.new.kept.items }
        ensures grows { KnowsMore self.old self.new }
        ensures end { IfOk result (IsFareEnd case.now.book.now key self.new) }
    {
        let end = self.add_groups(case, markets, key)?;
        self.places.insert(key.letters(), self.ends.len())?;
        self.ends.push(KeptEnd { key, end })?;
        Ok(end)
    }

    /// The groups of an end.
    pub fn groups(&self, end: FareEnd) -> &[EndGroup]
        requires { IsRange self.now.groups.items end.from end.to }
        ensures { result.now ≡ between self.now.groups.items end.from end.to }
    {
        &self.groups[end.from..end.to]
    }

    /// The rungs of a group.
    pub fn rungs(&self, group: &EndGroup) -> &[Rung]
        requires { IsRange self.now.rungs.items group.now.from group.now.to }
        ensures { result.now ≡ between self.now.rungs.items group.now.from group.now.to }
    {
        &self.rungs[group.from..group.to]
    }

    /// Adds the groups of an end.
    fn add_groups(
        &mut self,
        case: &TableCase<'_>,
        markets: &mut Markets,
        key: EndKey,
    ) -> Result<FareEnd, Mem>
        requires rules { AreKnownRules case.now.book.now self.old.rules.of.items }
        requires markets { AreMarkets case.now.book.now markets.old.kept.items }
        ensures rules { AreKnownRules case.now.book.now self.new.rules.of.items }
        ensures markets { AreMarkets case.now.book.now markets.new.kept.items }
        ensures grows { KeepsEnds self.old self.new }
        ensures end { IfOk result (IsFareEnd case.now.book.now key self.new) }
    {
        let mut found = Vec::new(case.alloc);
        let there = EndWay {
            key,
            reverse: false,
        };
        let back = EndWay { key, reverse: true };
        self.add_way(case, markets, there, &mut found)?;
        self.add_way(case, markets, back, &mut found)?;
        // Those of one rule stand together, so that a rule is asked once.
        found.sort_unstable_by_key(rule_of);
        let from = self.groups.len();
        self.groups.extend_from_slice(found.as_slice())?;
        Ok(FareEnd {
            from,
            to: self.groups.len(),
        })
    }

    /// Finds the carrier's groups that are filed this way.
    fn add_way(
        &mut self,
        case: &TableCase<'_>,
        markets: &mut Markets,
        way: EndWay,
        found: &mut Vec<EndGroup>,
    ) -> Result<(), Mem>
        requires rules { AreKnownRules case.now.book.now self.old.rules.of.items }
        requires markets { AreMarkets case.now.book.now markets.old.kept.items }
        ensures rules { AreKnownRules case.now.book.now self.new.rules.of.items }
        ensures markets { AreMarkets case.now.book.now markets.new.kept.items }
        ensures grows { KeepsEnds self.old self.new }
        ensures groups { self.new.groups ≡ self.old.groups }
        ensures found { IsPrefix found.old.items found.new.items }
        ensures each { Each (IsOneOfEnd case.now.book.now way.key self.old) found.old.items → Each (IsOneOfEnd case.now.book.now way.key self.new) found.new.items }
        ensures way { OnOk result (HasWay case.now.book.now way.key self.new way.reverse found.new.items) }
    {
        let place = markets.find(case.alloc, case.book, way.market())?;
        match filed_at(markets.kept.as_slice(), place, way.key.carrier) {
            Some(filed) => self.add_market(case, &markets.kept[filed.market], filed, way, found),
            None => Ok(()),
        }
    }

    /// Finds the carrier's groups of a market, which stand there.
    fn add_market(
        &mut self,
        case: &TableCase<'_>,
        market: &Market,
        filed: Filed,
        way: EndWay,
        found: &mut Vec<EndGroup>,
    ) -> Result<(), Mem>
        requires rules { AreKnownRules case.now.book.now self.old.rules.of.items }
        requires market { IsMarket case.now.book.now market.now }
        requires sheet { SheetOf case.now.book.now (end_from way.reverse way.key.from way.key.to) (end_to way.reverse way.key.from way.key.to) market.now.sheet.value }
        requires within { filed.to ≤ length market.now.groups }
        ensures rules { AreKnownRules case.now.book.now self.new.rules.of.items }
        ensures grows { KeepsEnds self.old self.new }
        ensures groups { self.new.groups ≡ self.old.groups }
        ensures found { IsPrefix found.old.items found.new.items }
        ensures each { Each (IsOneOfEnd case.now.book.now way.key self.old) found.old.items → Each (IsOneOfEnd case.now.book.now way.key self.new) found.new.items }
        ensures has { OnOk result (HasGroupsUpTo self.new way market.now.groups filed.from filed.to found.new.items) }
    {
        for at in filed.from..filed.to {
            let group = &market.groups.as_slice()[at];
            if group.key.carrier.is(way.key.carrier) {
                let made = self.made_group(case, market, group, way.reverse)?;
                found.push(made)?;
            }
        }
        Ok(())
    }

    /// A group of a market, with its rungs and the number of its rule.
    fn made_group(
        &mut self,
        case: &TableCase<'_>,
        market: &Market,
        group: &FareGroup,
        reverse: bool,
    ) -> Result<EndGroup, Mem>
        requires rules { AreKnownRules case.now.book.now self.old.rules.of.items }
        requires market { IsMarket case.now.book.now market.now }
        requires group { IsIn group.now market.now.groups }
        ensures rules { AreKnownRules case.now.book.now self.new.rules.of.items }
        ensures grows { KeepsEnds self.old self.new }
        ensures groups { self.new.groups ≡ self.old.groups }
        ensures group { IfOk result (IsEndGroup self.new reverse group.now) }
    {
        case.book.limits();
        rows_stand_once();
        let sheet: &MarketSheet = &market.sheet;
        let row = first_row(sheet, group);
        let rule = self.rules.find(group.key, &row.rule)?;
        let from = self.rungs.len();
        self.rungs.extend_from_slice(group.rungs.as_slice())?;
        let to = self.rungs.len();
        Ok(EndGroup {
            key: group.key,
            reverse,
            rule,
            from,
            to,
        })
    }
}

impl EndWay {
    /// The market whose fares are filed this way between the places.
    fn market(self) -> MarketKey
        ensures from { result.from ≡ end_from self.reverse self.key.from self.key.to }
        ensures to { result.to ≡ end_to self.reverse self.key.from self.key.to }
    {
        let EndKey { from, to, .. } = self.key;
        if self.reverse {
            MarketKey { from: to, to: from }
        } else {
            MarketKey { from, to }
        }
    }
}

/// The end of a key, if it is known.
fn known(ends: &[KeptEnd], places: &IndexMap<u64, usize>, key: EndKey) -> Option<FareEnd>
    ensures { IfSome result (λ end. IsIn (record { key = key; end = end }) ends.now) }
{
    let at = places.get(&key.letters()).copied()?;
    let kept = ends.get(at)?;
    if kept.key.is(key) {
        Some(kept.end)
    } else {
        None
    }
}

fn rule_of(group: &EndGroup) -> usize {
    group.rule
}
