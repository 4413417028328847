//! The cases keep to the limits of a case's rows, filings, rules and requests.
ghost use Rattle.std.specs.Prelude.{pos, List, [], ◌∷◌, true, false};
ghost use Rattle.fare_law.specs.declared.rules.EndOnEnd.TheVariants.{Never, SameCarrier as OneCarrier};
ghost use Rattle.fare_law.specs.declared.rules.Partners.TheVariants.{Any, SameRule};
ghost use Rattle.fare_law.specs.declared.rules.UnitKind.TheVariants.{OpenJaw, RoundTrip};
ghost use Rattle.fare_law.specs.RuleLimits.{IsRule};
ghost use Rattle.worked_cases.specs.Cases.{charges, circle_book, circle_request, no_stops, one_way_book, one_way_request, round_book, round_request, with_sunday};
ghost use Rattle.worked_cases.specs.Journeys.{boston_fare, far_fare, inner_book, inner_request, jaw_book, jaw_request, paris_fare};
ghost use Rattle.worked_cases.specs.Makers.{bos, lon, nyc, par};
ghost use Rattle.worked_cases.specs.Ranges.{KeepsLimits};
ghost use Rattle.worked_cases.specs.Rules.{all_kinds, bought_before, changes_at_most, combines, departs_on, in_season, lists_flights, stays_at_most, travels_by, travels_within};

/// Each book of a case and its request keep to their limits.
pub fn limits_of_books()
    ensures one_way { KeepsLimits one_way_book one_way_request }
    ensures round_trip { KeepsLimits round_book round_request }
    ensures circle { KeepsLimits circle_book circle_request }
    ensures boston { KeepsLimits (jaw_book bos lon boston_fare) (jaw_request bos lon boston_fare) }
    ensures paris { KeepsLimits (jaw_book nyc par paris_fare) (jaw_request nyc par paris_fare) }
    ensures far { KeepsLimits (jaw_book bos par far_fare) (jaw_request bos par far_fare) }
    ensures inner { KeepsLimits inner_book inner_request }
{}

/// Each rule of a case keeps to its limits.
pub fn limits_of_rules()
    ensures no_stops { IsRule no_stops }
    ensures charges { IsRule charges }
    ensures with_sunday { IsRule with_sunday }
    ensures times { IsRule (departs_on (1 ∷ 7 ∷ []) 0 1439) }
    ensures seasons { IsRule in_season }
    ensures flights { IsRule (lists_flights false 102 200) }
    ensures advance { IsRule (bought_before 14) }
    ensures stays { IsRule (stays_at_most 7) }
    ensures changes { IsRule (changes_at_most 1 true) }
    ensures kinds { IsRule (combines all_kinds SameRule Never) }
    ensures two_kinds { IsRule (combines (RoundTrip ∷ OpenJaw ∷ []) Any OneCarrier) }
    ensures dates { IsRule travels_within }
    ensures last_date { IsRule (travels_by 22348) }
{}
