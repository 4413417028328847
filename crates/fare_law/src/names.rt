//! Names of the trade: places, carriers, fare bases and booking classes.
ghost use Rattle.std.specs.Prelude.{◌≡◌, ◌↔◌, IsTrue};

use crate::ArrayVec;

/// A place: three capital letters. One code names one place.
#[derive(Clone, Copy, Default, PartialEq, Eq, PartialOrd, Ord, Hash, Debug)]
pub struct Place(pub [u8; 3]);

/// A carrier: two capital letters or digits.
#[derive(Clone, Copy, Default, PartialEq, Eq, PartialOrd, Ord, Hash, Debug)]
pub struct Carrier(pub [u8; 2]);

/// A fare basis: one to eight capital letters or digits.
#[derive(Default, PartialEq, Eq, PartialOrd, Ord, Debug, Drop)]
pub struct Basis(pub ArrayVec<u8, 8>);

/// A booking class: 0 for A to 25 for Z.
pub type Class = u8;

impl Place {
    /// Whether it is the same place.
    pub fn is(self, other: Place) -> bool
        ensures { IsTrue result ↔ (self ≡ other) }
    {
        // letter by letter: a comparison of arrays is a call
        let [a, b, c] = self.0;
        let [d, e, f] = other.0;
        a == d && b == e && c == f
    }
}

impl Carrier {
    /// Whether it is the same carrier.
    pub fn is(self, other: Carrier) -> bool
        ensures { IsTrue result ↔ (self ≡ other) }
    {
        let [a, b] = self.0;
        let [c, d] = other.0;
        a == c && b == d
    }
}

impl Basis {
    /// The same basis.
    pub fn copied(&self) -> Basis
        ensures { result ≡ self.now }
    {
        Basis(self.0.copied())
    }
}
