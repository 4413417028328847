//! A filing while its actions are taken: what they leave so far, beside what the book has.
ghost use Rattle.std.specs.Prelude.{◌≡◌};
ghost use Rattle.fare_book.specs.declared.draft.Stop.TheVariants.{Mem as OutOfMemory};

use crate::fare_table::FareTable;
use crate::keys::{Market, RuleKey};
use fare_law::{BookWhy, MarketSheet, Rule, Shared};
use seat_classes::Seats;
use std::alloc::{AllocError, AllocFailed};
use std::collections::{HashMap, HashSet};
use std::sync::Arc;

/// What is live after the actions so far. A market that they touch has a table of its fares, and each
/// other one its sheet, whose rows may have rules that are changed since.
#[derive(Drop)]
pub struct Draft {
    pub sheets: HashMap<Market, Arc<MarketSheet>>,
    pub tables: HashMap<Market, FareTable>,
    pub rules: HashMap<RuleKey, Shared<Rule>>,
    /// The rules that are put or dropped.
    pub changed: HashSet<RuleKey>,
    /// How many live fares name each rule.
    pub uses: HashMap<RuleKey, u32>,
    /// Shared with the book for as long as none are put or dropped.
    pub seats: Arc<Seats>,
    pub fare_count: u32,
    pub rule_count: u32,
}

/// Why an action isn't taken.
#[derive(Clone, Copy)]
pub enum Stop {
    /// It has this fault.
    Fault(BookWhy),
    /// Want of memory.
    Mem,
}

impl From<fare_law::Mem> for Stop {
    ghost from_gives = { λ _ e. e ≡ OutOfMemory };

    fn from(_error: fare_law::Mem) -> Stop {
        Stop::Mem
    }
}

impl From<AllocError> for Stop {
    ghost from_gives = { λ _ e. e ≡ OutOfMemory };

    fn from(_error: AllocError) -> Stop {
        Stop::Mem
    }
}

impl<T: Drop> From<AllocFailed<T>> for Stop {
    ghost from_gives = { λ _ e. e ≡ OutOfMemory };

    fn from(_error: AllocFailed<T>) -> Stop {
        Stop::Mem
    }
}
