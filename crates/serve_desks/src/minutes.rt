//! What lies under the lock while tellers and clerk are at work.
ghost use Rattle.std.specs.Prelude.{◌≡◌};
ghost use Rattle.std.specs.Option.{ForSome};

use fare_law::Mem;
use fare_versions::Receipt;
use std::alloc::Global;
use std::marker::{Brand, PhantomData};
use std::sync::{Condvar, Mutex, Wait};

/// Names the clerk's history, what is asked, and over which timetable. A call picks it.
pub(crate) trait House {
    ghost use Rattle.fare_versions.specs.Histories.{House as Name};
    ghost use Rattle.serve_desks.specs.Terms.{Terms};

    ghost name: { Name };

    ghost terms: { Terms };
}

impl House for Brand {
    ghost use Rattle.std.specs.Prelude.{[]};

    ghost name = { record { number = 0; log_name = 0; cells_name = 0 } };

    ghost terms = { record { asks = []; timetable = record { places = []; flights = []; seats = [] } } };
}

/// How one filing was judged: the receipt where it was accepted.
#[derive(Drop)]
pub(crate) struct Slip<H: House> {
    pub receipt: Option<Receipt>,
    pub of: PhantomData<H>,
    pub ghost house: { ForSome receipt (λ r. r.house ≡ H.name) },
}

impl<H: House> Slip<H> {
    pub fn accepted(receipt: Receipt) -> Slip<H>
        requires { receipt.house ≡ H.name }
    {
        Slip {
            receipt: Some(receipt),
            of: PhantomData,
        }
    }

    pub fn refused() -> Slip<H> {
        Slip {
            receipt: None,
            of: PhantomData,
        }
    }
}

/// What lies under the lock: the slips so far, and whether the run stops.
#[derive(Drop)]
pub(crate) struct Minutes<H: House> {
    pub slips: Vec<Slip<H>>,
    pub is_stopped: bool,
}

/// The minutes under their lock, and the news that they have changed.
#[derive(Drop)]
pub(crate) struct Board<H: House> {
    pub alloc: Global,
    pub minutes: Mutex<Minutes<H>>,
    pub news: Condvar,
}

impl<H: House> Board<H> {
    pub fn new(alloc: Global) -> Board<H> {
        Board {
            alloc,
            minutes: Mutex::new(Minutes::<H> {
                slips: Vec::new(alloc),
                is_stopped: false,
            }),
            news: Condvar::new(),
        }
    }

    /// Says that the run stops.
    pub fn stop<R: Wait>(&self, rt: &R) {
        self.minutes.lock(rt).is_stopped = true;
        self.news.notify_all();
    }

    /// `Mem` where the run stops.
    pub fn go_on<R: Wait>(&self, rt: &R) -> Result<(), Mem> {
        if self.minutes.lock(rt).is_stopped {
            return Err(Mem);
        }
        Ok(())
    }

    /// Adds a slip.
    pub fn post<R: Wait>(&self, rt: &R, slip: Slip<H>) -> Result<(), Mem> {
        let posted = self.minutes.lock(rt).slips.push(slip);
        self.news.notify_all();
        Ok(posted?)
    }
}
