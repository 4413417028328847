//! A growable list that contracts see as a list.
ghost use Rattle.std.specs.Prelude.{◌≡◌, ◌+◌, ◌<◌, [], ◌∷◌, ◌++◌, length, OnOk, OnErr};
ghost use Rattle.std.specs.List.{AllZip};
ghost use Rattle.std.specs.Cmp.Lexicographic.{pointwise, lists_per, lists_equiv, slice_partial_cmp, lists_po, slice_cmp, lists_total, lists_agrees, lists_ties};

use crate::Mem;
use std::alloc::{AllocError, Global};
use std::cmp::Ordering;
use std::fmt;
use std::marker::Model;

/// A growable list.
#[derive(Drop)]
pub struct List<T> {
    inner: Vec<T>,
}

impl<T> Model for List<T> {
    ghost use Rattle.std.specs.Prelude.{List as Items};

    ghost Value = { Items T };

    ghost view = { λ v. v.inner.items };
}

impl<T> List<T> {
    /// No item.
    pub fn new(alloc: Global) -> List<T>
        ensures { result ≡ [] }
    {
        List {
            inner: Vec::new(alloc),
        }
    }

    /// The items of a vector.
    pub fn from_vec(inner: Vec<T>) -> List<T>
        ensures { result ≡ inner.items }
    {
        List { inner }
    }

    /// The items as a vector.
    pub fn into_vec(self) -> Vec<T>
        ensures { result.items ≡ self }
    {
        let List { inner } = self;
        inner
    }

    /// The items.
    pub fn as_slice(&self) -> &[T]
        ensures { result.now ≡ self.now }
    {
        self.inner.as_slice()
    }

    /// The number of items.
    pub fn len(&self) -> usize
        ensures { result ≡ length self.now }
    {
        self.inner.len()
    }
}

impl<T: Drop> List<T> {
    /// Adds an item at the end.
    pub fn push(&mut self, item: T) -> Result<(), Mem>
        ensures items { OnOk result (self.new ≡ self.old ++ item ∷ []) }
        ensures same { OnErr result (self.new ≡ self.old) }
    {
        self.inner.push(item)?;
        Ok(())
    }
}

impl<T: PartialEq> PartialEq for List<T> {
    ghost eq = { λ v w. pointwise T.eq v w };

    ghost laws = { lists_per T.laws };

    fn eq(&self, other: &Self) -> bool {
        self.as_slice() == other.as_slice()
    }
}

impl<T: Eq> Eq for List<T> {
    ghost laws = { lists_equiv T.Eq.laws };
}

impl<T: PartialOrd> PartialOrd for List<T> {
    ghost partial_cmp = { λ v w. slice_partial_cmp T.partial_cmp v w };

    ghost laws = { lists_po T.PartialOrd.laws };

    fn partial_cmp(&self, other: &Self) -> Option<Ordering> {
        self.as_slice().partial_cmp(&other.as_slice())
    }
}

impl<T: Ord> Ord for List<T> {
    ghost cmp = { λ v w. slice_cmp T.cmp v w };

    ghost total = { lists_total T.total };

    ghost matches_partial_cmp = { λ v w. lists_agrees T.matches_partial_cmp v w };

    ghost matches_eq = { λ v w. lists_ties T.cmp T.matches_eq v w };

    fn cmp(&self, other: &Self) -> Ordering {
        self.as_slice().cmp(&other.as_slice())
    }
}

impl<T: fmt::Debug> fmt::Debug for List<T> {
    fn fmt<W: fmt::Write>(&self, f: &mut fmt::Formatter<W>) -> fmt::Result {
        self.as_slice().fmt(f)
    }
}

impl<T: Clone> Clone for List<T> {
    ghost is_clone = { λ v w. AllZip T.is_clone v w };

    fn clone(&self) -> Result<Self, AllocError> {
        Ok(List {
            inner: self.inner.clone()?,
        })
    }
}
