//! What the fares of a unit or of a ticket have in common.
ghost use Rattle.std.specs.Prelude.{◌≡◌, ◌↔◌, IsTrue};
ghost use Rattle.open_unit.specs.OpenUnits.{carrier_with, rule_with, PartnerHolds};

use fare_law::Carrier;

/// The carrier of all fares so far.
#[derive(Clone, Copy, PartialEq, Eq, PartialOrd, Ord, Debug)]
pub enum CarrierMark {
    /// No fare yet.
    NotYet,
    /// Every fare is this carrier's.
    One(Carrier),
    /// Two fares have different carriers.
    Mixed,
}

/// The rule of all fares so far.
#[derive(Clone, Copy, PartialEq, Eq, PartialOrd, Ord, Debug)]
pub enum RuleMark {
    /// Every fare is of one carrier and on its rule of this number.
    One(u16),
    /// Two fares have different carriers or rules.
    Mixed,
}

impl CarrierMark {
    /// The mark with one more fare, of this carrier.
    pub fn with(self, carrier: Carrier) -> CarrierMark
        ensures { result ≡ carrier_with self carrier }
    {
        match self {
            CarrierMark::NotYet => CarrierMark::One(carrier),
            CarrierMark::One(one) if one == carrier => self,
            _ => CarrierMark::Mixed,
        }
    }
}

impl RuleMark {
    /// The mark with one more fare, on the rule of this number, where `carriers` is the mark of
    /// all these fares.
    pub fn with(self, carriers: CarrierMark, rule: u16) -> RuleMark
        ensures { result ≡ rule_with carriers self rule }
    {
        match (carriers, self) {
            (CarrierMark::One(_), RuleMark::One(one)) if one == rule => self,
            _ => RuleMark::Mixed,
        }
    }
}

/// Whether fares with these marks have in common what is asked: nothing for 0, one carrier for 1,
/// one carrier and one rule for 2.
pub fn partners_hold(demand: u8, carriers: CarrierMark, rules: RuleMark) -> bool
    ensures { IsTrue result ↔ PartnerHolds demand carriers rules }
{
    let one_carrier = matches!(carriers, CarrierMark::One(_));
    let one_rule = matches!(rules, RuleMark::One(_));
    (demand < 1 || one_carrier) && (demand < 2 || one_rule)
}
