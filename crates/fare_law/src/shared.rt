//! A value with several owners that contracts see as the value.
ghost use Rattle.std.specs.Prelude.{◌≡◌, IfOk};

use crate::Mem;
use std::alloc::{AllocError, Global};
use std::fmt;
use std::marker::Model;
use std::ops::Deref;
use std::sync::Arc;

/// A value that stands once in memory and is shared by those that hold it.
#[derive(Drop)]
pub struct Shared<T> {
    inner: Arc<T>,
}

impl<T> Model for Shared<T> {
    ghost use Rattle.std.specs.Arc.{arc_value};

    ghost Value = { T };

    ghost view = { λ s. arc_value s.inner };
}

impl<T> Deref for Shared<T> {
    type Target = T;

    ghost deref_gives = { λ s x. x ≡ s };

    fn deref(&self) -> &T
        ensures { result.now ≡ self.now }
    {
        &self.inner
    }
}

impl<T> Shared<T> {
    /// The same value, shared; it takes no memory, and fails only where 2^63 owners share it already.
    pub fn share(&self) -> Result<Shared<T>, Mem>
        ensures { IfOk result (λ s. s ≡ self.now) }
    {
        Ok(Shared {
            inner: Arc::try_clone(&self.inner)?,
        })
    }
}

impl<T: Drop> Shared<T> {
    /// The value, with one owner.
    pub fn new(alloc: Global, value: T) -> Result<Shared<T>, Mem>
        ensures { IfOk result (λ s. s ≡ value) }
    {
        Ok(Shared {
            inner: Arc::new(alloc, value)?,
        })
    }
}

impl<T: PartialEq> PartialEq for Shared<T> {
    ghost eq = { λ v w. T.eq v w };

    ghost laws = { T.laws };

    fn eq(&self, other: &Self) -> bool {
        let (one, other): (&T, &T) = (self, other);
        one == other
    }
}

impl<T: Eq> Eq for Shared<T> {
    ghost laws = { T.Eq.laws };
}

impl<T: fmt::Debug> fmt::Debug for Shared<T> {
    fn fmt<W: fmt::Write>(&self, f: &mut fmt::Formatter<W>) -> fmt::Result {
        let value: &T = self;
        value.fmt(f)
    }
}

impl<T: Drop> Clone for Shared<T> {
    ghost is_clone = { λ v w. w ≡ v };

    fn clone(&self) -> Result<Self, AllocError> {
        Ok(Shared {
            inner: Arc::try_clone(&self.inner)?,
        })
    }
}
