//! What follows of the law's limits.
ghost use Rattle.std.specs.Prelude.{◌≤◌, List, length};
ghost use Rattle.fare_law.specs.Limits.{IsFlight};
ghost use Rattle.fare_law.specs.Parts.{stopover_charge, surcharges};
ghost use Rattle.fare_law.specs.RuleLimits.{IsRule};
ghost use Rattle.fare_law.specs.declared.flights.Flight.{Flight};
ghost use Rattle.fare_law.specs.declared.rules.Rule.{Rule};
ghost use Rattle.fare_rules.specs.Limits.{HasLowCharge, HasLowSurcharges, IsTimed};

use fare_law::MOST_FLIGHTS_OF_A_COMPONENT;

/// Flights and rules within their limits meet what this crate's calls ask for, and what they cost
/// beside the fare is low.
#[tactic(auto, using(crate::proofs::WithinLimits::limits_met))]
pub fn limits_are_met()
    ensures timed { (f : Flight) → IsFlight f → IsTimed f }
    ensures charge { (r : Rule) → IsRule r → HasLowCharge r }
    ensures surcharges { (r : Rule) → IsRule r → HasLowSurcharges r }
    ensures charged { (r : Rule) (fs : List Flight) → IsRule r → length fs ≤ MOST_FLIGHTS_OF_A_COMPONENT → stopover_charge r fs ≤ 3000000 }
    ensures surcharged { (r : Rule) (fs : List Flight) → IsRule r → length fs ≤ MOST_FLIGHTS_OF_A_COMPONENT → surcharges r.cat12 fs ≤ 32000000 }
{}
