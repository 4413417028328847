//! Tables merged: each outline once, at its least price.
ghost use Rattle.std.specs.Prelude.{◌≡◌, ◌≤◌, ◌∷◌, ◌++◌, ◌<◌, [], List as Items, OnOk, length};
ghost use Rattle.fare_law.specs.Lists.{Each};
ghost use Rattle.outline_tables.specs.declared.outline_numbers.Priced.{Priced as OnePrice};
ghost use Rattle.outline_tables.specs.Merges.{IsLeastMerge, IsMerging, PutsIn};

use crate::outline_numbers::Priced;
use fare_law::Mem;
use std::alloc::Global;

/// Where an outline stands in the merge that has this number.
#[derive(Clone, Copy)]
pub struct Stand {
    pub merge: u64,
    pub at: usize,
}

/// A table that others are merged into. Its room is used again for the next.
#[derive(Drop)]
pub struct Merging {
    /// The number of the merge in hand.
    pub merge: u64,
    /// Where each outline stands, by its number.
    pub stands: Vec<Stand>,
    pub table: Vec<Priced>,
}

impl Merging {
    /// An empty table.
    pub fn new(alloc: Global) -> Merging
        ensures merging { IsMerging result }
        ensures table { result.table.items ≡ [] }
    {
        Merging {
            merge: 1,
            stands: Vec::new(alloc),
            table: Vec::new(alloc),
        }
    }

    /// Begins an empty table.
    pub fn begin(&mut self)
        requires { IsMerging self.old }
        ensures merging { IsMerging self.new }
        ensures table { self.new.table.items ≡ [] }
    {
        self.table.clear();
        if self.merge == u64::MAX {
            self.stands.clear();
            self.merge = 0;
        }
        self.merge += 1;
    }

    /// Merges a table into it. The outlines have so many numbers.
    pub fn add(&mut self, table: &[Priced], count: usize) -> Result<(), Mem>
        requires merging { IsMerging self.old }
        requires within { Each (λ (p : OnePrice). p.outline < count) table.now }
        ensures merging { IsMerging self.new }
        ensures merged { OnOk result ((tables : Items (Items OnePrice)) → IsLeastMerge tables self.old.table.items → IsLeastMerge (tables ++ table.now ∷ []) self.new.table.items) }
    {
        self.lengthen(count)?;
        for one in table {
            self.put(one)?;
        }
        Ok(())
    }

    /// Makes room for the outlines of so many numbers.
    fn lengthen(&mut self, count: usize) -> Result<(), Mem>
        requires { IsMerging self.old }
        ensures merging { IsMerging self.new }
        ensures table { self.new.table.items ≡ self.old.table.items }
        ensures room { OnOk result (count ≤ length self.new.stands.items) }
    {
        while self.stands.len() < count {
            self.stands.push(Stand { merge: 0, at: 0 })?;
        }
        Ok(())
    }

    /// Puts an outline in at a price. Where it stands, the lesser price stays.
    #[inline]
    fn put(&mut self, one: &Priced) -> Result<(), Mem>
        requires merging { IsMerging self.old }
        requires within { one.now.outline < length self.old.stands.items }
        ensures merging { IsMerging self.new }
        ensures stands { length self.new.stands.items ≡ length self.old.stands.items }
        ensures put { OnOk result (PutsIn one.now self.old.table.items self.new.table.items) }
    {
        let stand = self.stands[one.outline];
        if stand.merge == self.merge {
            let old = &mut self.table[stand.at];
            if one.price < old.price {
                old.price = one.price;
            }
            return Ok(());
        }
        let at = self.table.len();
        self.table.push(*one)?;
        self.stands[one.outline] = Stand {
            merge: self.merge,
            at,
        };
        Ok(())
    }
}
