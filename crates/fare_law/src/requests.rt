//! Requests.
ghost use Rattle.std.specs.Prelude.{◌≡◌};

use crate::{ArrayVec, MOST_SLICES, Place};

/// One slice of a journey.
#[derive(Clone, Copy, Default, PartialEq, Eq, Debug)]
pub struct Slice {
    pub from: Place,
    pub to: Place,
    /// The first local day of departure.
    pub first: i32,
    /// How many days the window has, 1 to 7.
    pub days: u8,
}

/// What is asked of a search.
#[derive(PartialEq, Eq, Debug, Drop)]
pub struct Request {
    /// The day of sale.
    pub sale: i32,
    /// Passengers, 1 to 9.
    pub party: u8,
    /// How many tickets at most, 1 to 1,000.
    pub best: u16,
    pub slices: ArrayVec<Slice, MOST_SLICES>,
}

impl Request {
    /// The same request.
    pub fn copied(&self) -> Request
        ensures { result ≡ self.now }
    {
        Request {
            sale: self.sale,
            party: self.party,
            best: self.best,
            slices: self.slices.copied(),
        }
    }
}

/// Why a request is refused; of several reasons the first that is listed here.
#[derive(Clone, Copy, PartialEq, Eq, Debug)]
pub enum Why {
    Slices,
    Party,
    Best,
    Window,
    SamePlace,
    UnknownPlace,
}
