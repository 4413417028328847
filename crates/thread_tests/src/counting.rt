//! A gate that counts the nodes that are built, and may hold who builds until something is filed.
use fare_law::Gate;
use std::sync::atomic::{AtomicU64, Ordering};

const MOST_TURNS: u64 = 1_000_000_000;

/// Waits until something came so often, for so many turns at most, and says whether it did.
pub fn has_come(times: &AtomicU64, wanted: u64) -> bool {
    for _ in 0..MOST_TURNS {
        if times.load(Ordering::SeqCst) >= wanted {
            return true;
        }
    }
    false
}

/// Counts the nodes that are built, the filings that are told of, and how often one was held for too long.
#[derive(Drop)]
pub struct Counting {
    built: AtomicU64,
    filed: AtomicU64,
    given_up: AtomicU64,
}

impl Counting {
    /// Told of so many filings. It holds who builds until it is told of one, so that with one it holds nobody.
    pub fn after(filed: u64) -> Counting {
        Counting {
            built: AtomicU64::new(0),
            filed: AtomicU64::new(filed),
            given_up: AtomicU64::new(0),
        }
    }

    pub fn built(&self) -> u64 {
        self.built.load(Ordering::SeqCst)
    }

    pub fn given_up(&self) -> u64 {
        self.given_up.load(Ordering::SeqCst)
    }

    /// Waits until a node is being built.
    pub fn wait_for_building(&self) {
        self.hold(&self.built);
    }

    pub fn tell_filed(&self) {
        self.filed.fetch_add(1, Ordering::SeqCst);
    }

    fn hold(&self, until: &AtomicU64) {
        if !has_come(until, 1) {
            self.given_up.fetch_add(1, Ordering::SeqCst);
        }
    }
}

impl Gate for Counting {
    fn pass(&self, _desk: u32) {
        self.built.fetch_add(1, Ordering::SeqCst);
        self.hold(&self.filed);
    }

    fn done(&self, _desk: u32) {}
}
