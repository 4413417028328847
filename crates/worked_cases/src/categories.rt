//! Each category of a rule at its boundary: what it lets in, and what it keeps out.
ghost use Rattle.std.specs.Prelude.{◌≡◌, pos, List, [], ◌∷◌, true, false, Some, None};
ghost use Rattle.fare_law.specs.declared.rules.EndOnEnd.TheVariants.{Free, Never, SameCarrier as OneCarrier};
ghost use Rattle.fare_law.specs.declared.rules.Partners.TheVariants.{Any, SameCarrier, SameRule};
ghost use Rattle.fare_law.specs.declared.rules.UnitKind.TheVariants.{Circle, OpenJaw, RoundTrip};
ghost use Rattle.fare_law.specs.Book.{free_rule};
ghost use Rattle.fare_law.specs.Lawful.{EndOnEndHolds};
ghost use Rattle.fare_law.specs.Parts.{DayTimeHolds, FlightsHold, TransfersHold};
ghost use Rattle.fare_law.specs.Units.{AdvanceHolds, EndsBy, KindHolds, MaxStayHolds, PartnersHold, SeasonHolds, TravelHolds, UnitLawful};
ghost use Rattle.worked_cases.specs.Cases.{after_minutes, first_flight, out_flight, with_sunday};
ghost use Rattle.worked_cases.specs.Makers.{flight_of, lon, nyc, qx};
ghost use Rattle.worked_cases.specs.Rules.{all_kinds, back_again, bought_before, bx, by_bx, changes_at_most, combines, departs_on, filed_by, in_season, in_unit, lists_flights, stays_at_most, there, there_alone, travels_by, travels_within};

/// Category 2: a departure at 10:00 on a Monday is in the times from 10:00 to 10:00 of Mondays, and not in
/// those from 10:01, those to 9:59, and those of all other days. A Sunday has the number 7.
pub fn departure_times()
    ensures on_time { DayTimeHolds (departs_on (1 ∷ []) 600 600) out_flight }
    ensures too_early { DayTimeHolds (departs_on (1 ∷ []) 601 1380) out_flight → ⊥ }
    ensures too_late { DayTimeHolds (departs_on (1 ∷ []) 0 599) out_flight → ⊥ }
    ensures other_days { DayTimeHolds (departs_on (2 ∷ 3 ∷ 4 ∷ 5 ∷ 6 ∷ 7 ∷ []) 0 1439) out_flight → ⊥ }
    ensures sunday { DayTimeHolds (departs_on (1 ∷ 7 ∷ []) 0 1439) (flight_of 101 lon nyc 22347) }
{}

/// Category 3: the first day and the last of each range are in season, the day before and the day after
/// aren't.
pub fn seasons()
    ensures first { SeasonHolds in_season (pos 22341) }
    ensures last { SeasonHolds in_season (pos 22348) }
    ensures before { SeasonHolds in_season (pos 22340) → ⊥ }
    ensures after { SeasonHolds in_season (pos 22349) → ⊥ }
    ensures second { SeasonHolds in_season (pos 22370) }
    ensures between { SeasonHolds in_season (pos 22369) → ⊥ }
{}

/// Category 4: flight 101 is one of 100 to 101 and none of 102 to 200, whether these are let in or kept out.
/// A flight of another carrier is none of them, and each flight of a component is asked.
pub fn listed_flights()
    ensures kept_out { FlightsHold (lists_flights false 100 101) (out_flight ∷ []) → ⊥ }
    ensures not_kept_out { FlightsHold (lists_flights false 102 200) (out_flight ∷ []) }
    ensures let_in { FlightsHold (lists_flights true 100 101) (out_flight ∷ []) }
    ensures not_let_in { FlightsHold (lists_flights true 102 200) (out_flight ∷ []) → ⊥ }
    ensures other_carrier { FlightsHold (lists_flights true 100 101) (by_bx out_flight ∷ []) → ⊥ }
    ensures both { FlightsHold (lists_flights true 1 2) (first_flight ∷ after_minutes 60 ∷ []) }
    ensures one_alone { FlightsHold (lists_flights true 1 1) (first_flight ∷ after_minutes 60 ∷ []) → ⊥ }
{}

/// Category 5: fourteen days before 3 March 2031 is 17 February. A day later is too late.
pub fn advance_purchase()
    ensures in_time { AdvanceHolds (bought_before 14) (pos 22327) (pos 22341) }
    ensures too_late { AdvanceHolds (bought_before 14) (pos 22328) (pos 22341) → ⊥ }
{}

/// Category 7: a stay of at most seven days ends on the seventh day after the first and not on the eighth.
/// The rule of either fare binds the round trip. Neither category 6 nor 7 is asked of a one way.
pub fn longest_stays()
    ensures last { MaxStayHolds (stays_at_most 7) (pos 22341) (pos 22348) }
    ensures too_long { MaxStayHolds (stays_at_most 7) (pos 22341) (pos 22349) → ⊥ }
    ensures week { UnitLawful (there (stays_at_most 7) ∷ back_again (stays_at_most 7) ∷ []) }
    ensures first_binds { UnitLawful (there (stays_at_most 6) ∷ back_again free_rule ∷ []) → ⊥ }
    ensures second_binds { UnitLawful (there free_rule ∷ back_again (stays_at_most 6) ∷ []) → ⊥ }
    ensures one_way { UnitLawful (there_alone with_sunday ∷ []) }
{}

/// Category 9: one transfer is one too many where none is allowed, and a stopover is none. Where it asks for
/// online, every flight is of the fare's carrier; where it doesn't, and where it is absent, the first is.
pub fn connections()
    ensures one { TransfersHold (changes_at_most 1 false) qx (first_flight ∷ after_minutes 1440 ∷ []) }
    ensures too_many { TransfersHold (changes_at_most 0 false) qx (first_flight ∷ after_minutes 1440 ∷ []) → ⊥ }
    ensures stopover { TransfersHold (changes_at_most 0 false) qx (first_flight ∷ after_minutes 1441 ∷ []) }
    ensures online { TransfersHold (changes_at_most 1 true) qx (first_flight ∷ after_minutes 60 ∷ []) }
    ensures not_online { TransfersHold (changes_at_most 1 true) qx (first_flight ∷ by_bx (after_minutes 60) ∷ []) → ⊥ }
    ensures offline { TransfersHold (changes_at_most 1 false) qx (first_flight ∷ by_bx (after_minutes 60) ∷ []) }
    ensures other_first { TransfersHold (changes_at_most 1 false) qx (by_bx first_flight ∷ after_minutes 60 ∷ []) → ⊥ }
    ensures absent { TransfersHold free_rule qx (first_flight ∷ by_bx (after_minutes 60) ∷ []) }
    ensures absent_first { TransfersHold free_rule qx (by_bx first_flight ∷ after_minutes 60 ∷ []) → ⊥ }
{}

/// Category 10 in a unit: a kind that isn't listed is refused, and so is a partner of another carrier, or,
/// where the rule is asked for, of another carrier or another rule of this one.
pub fn combinations()
    ensures kind { KindHolds (combines (RoundTrip ∷ OpenJaw ∷ []) Any Free) OpenJaw }
    ensures other_kind { KindHolds (combines (RoundTrip ∷ OpenJaw ∷ []) Any Free) Circle → ⊥ }
    ensures any { PartnersHold (filed_by qx 1 (there free_rule) ∷ filed_by bx 2 (back_again free_rule) ∷ []) (filed_by qx 1 (there (combines all_kinds Any Free))) }
    ensures carrier { PartnersHold (filed_by qx 1 (there free_rule) ∷ filed_by qx 2 (back_again free_rule) ∷ []) (filed_by qx 1 (there (combines all_kinds SameCarrier Free))) }
    ensures other_carrier { PartnersHold (filed_by qx 1 (there free_rule) ∷ filed_by bx 1 (back_again free_rule) ∷ []) (filed_by qx 1 (there (combines all_kinds SameCarrier Free))) → ⊥ }
    ensures rule { PartnersHold (filed_by qx 1 (there free_rule) ∷ filed_by qx 1 (back_again free_rule) ∷ []) (filed_by qx 1 (there (combines all_kinds SameRule Free))) }
    ensures other_rule { PartnersHold (filed_by qx 1 (there free_rule) ∷ filed_by qx 2 (back_again free_rule) ∷ []) (filed_by qx 1 (there (combines all_kinds SameRule Free))) → ⊥ }
    ensures rule_of_other { PartnersHold (filed_by qx 1 (there free_rule) ∷ filed_by bx 1 (back_again free_rule) ∷ []) (filed_by qx 1 (there (combines all_kinds SameRule Free))) → ⊥ }
{}

/// Category 10 end on end: a fare that asks for one carrier stands in no ticket with a fare of another one,
/// in whatever unit, and a fare that is never put end on end in no ticket of two units.
pub fn ends_on_ends()
    ensures one_carrier { EndOnEndHolds (in_unit 1 (filed_by qx 1 (there free_rule)) ∷ in_unit 2 (filed_by qx 2 (back_again free_rule)) ∷ []) (filed_by qx 1 (there (combines all_kinds Any OneCarrier))) }
    ensures two_carriers { EndOnEndHolds (in_unit 1 (filed_by qx 1 (there free_rule)) ∷ in_unit 1 (filed_by bx 1 (back_again free_rule)) ∷ []) (filed_by qx 1 (there (combines all_kinds Any OneCarrier))) → ⊥ }
    ensures one_unit { EndOnEndHolds (in_unit 1 (filed_by qx 1 (there free_rule)) ∷ in_unit 1 (filed_by bx 1 (back_again free_rule)) ∷ []) (filed_by qx 1 (there (combines all_kinds Any Never))) }
    ensures two_units { EndOnEndHolds (in_unit 1 (filed_by qx 1 (there free_rule)) ∷ in_unit 2 (filed_by qx 1 (back_again free_rule)) ∷ []) (filed_by qx 1 (there (combines all_kinds Any Never))) → ⊥ }
    ensures free { EndOnEndHolds (in_unit 1 (filed_by qx 1 (there free_rule)) ∷ in_unit 2 (filed_by bx 1 (back_again free_rule)) ∷ []) (filed_by qx 1 (there (combines all_kinds Any Free))) }
{}

/// Category 14: the first day lies in a range, as in category 3. The last day is at most the named one, which
/// in a round trip is the day of departure of the last flight.
pub fn travel_dates()
    ensures first { TravelHolds travels_within (pos 22341) }
    ensures last { TravelHolds travels_within (pos 22399) }
    ensures before { TravelHolds travels_within (pos 22340) → ⊥ }
    ensures after { TravelHolds travels_within (pos 22400) → ⊥ }
    ensures between { TravelHolds travels_within (pos 22349) → ⊥ }
    ensures by { EndsBy (travels_by 22348) (pos 22348) }
    ensures too_late { EndsBy (travels_by 22348) (pos 22349) → ⊥ }
    ensures back_by { UnitLawful (there (travels_by 22348) ∷ back_again free_rule ∷ []) }
    ensures back_too_late { UnitLawful (there (travels_by 22347) ∷ back_again free_rule ∷ []) → ⊥ }
{}
