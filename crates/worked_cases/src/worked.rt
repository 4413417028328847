//! The cases, each a clause of a law function.
ghost use Rattle.std.specs.Prelude.{◌≡◌, ◌≢◌, ◌<◌, ◌≤ℤ◌, ℕ, ℤ, pos, List, [], ◌∷◌, map, true, None, Some};
ghost use Rattle.fare_law.specs.declared.fares.FareKind.TheVariants.{O, R, S};
ghost use Rattle.fare_law.specs.declared.requests.Request.{Request};
ghost use Rattle.fare_law.specs.declared.requests.Why.TheVariants.{Slices, Party, Best as BestCount, Window, SamePlace, UnknownPlace};
ghost use Rattle.fare_law.specs.declared.tickets.Piece.{Piece};
ghost use Rattle.fare_law.specs.declared.tickets.Ticket.{Ticket};
ghost use Rattle.fare_law.specs.declared.rules.UnitKind.TheVariants.{Circle, OpenJaw, RoundTrip};
ghost use Rattle.fare_law.specs.Book.{Book, free_rule};
ghost use Rattle.fare_law.specs.Days.{first_sunday_after, weekday};
ghost use Rattle.fare_law.specs.Lawful.{AtMostTwoStraddle, Lawful, Numbered};
ghost use Rattle.fare_law.specs.Best.{Before, Costs};
ghost use Rattle.fare_law.specs.Codes.{basis_number, carrier_number, code};
ghost use Rattle.fare_law.specs.Parts.{price_of, stopovers};
ghost use Rattle.fare_law.specs.Requests.{judged, judged_alone};
ghost use Rattle.fare_law.specs.Units.{IsUnit, MinStayHolds};
ghost use Rattle.worked_cases.specs.Cases.{after_minutes, asked, backward, charged, first_flight, forward, r1, with_sunday, y1, circle_book, circle_legs, circle_request, one_way_book, one_way_legs, one_way_request, round_book, round_legs, round_request};
ghost use Rattle.worked_cases.specs.Journeys.{boston_fare, far_fare, inner_book, inner_legs, inner_request, jaw_book, jaw_legs, jaw_request, paris_fare};
ghost use Rattle.worked_cases.specs.Makers.{bos, lon, nyc, par, qx, rom, ticket_of};

use unit_labels::label_laws;

/// One flight on a one way fare of 20000: the ticket is lawful, costs 20000, and its code is one
/// flight, flight 0, the numbers of QX and Y1, alone, slot 0.
pub fn one_way()
    ensures lawful { Lawful (ticket_of one_way_legs) one_way_book one_way_request }
    ensures costs { Costs (ticket_of one_way_legs) one_way_book one_way_request 20000 }
    ensures coded { code (ticket_of one_way_legs) ≡ 1 ∷ 0 ∷ 1033 ∷ 3327747152473 ∷ 0 ∷ 0 ∷ [] }
{
    label_laws();
}

/// Out and back a week later on a fare of kind R at 40000: as one unit of two components the ticket is
/// lawful and costs 40000, half for each way. As two units it isn't, since a fare of kind R is no one way.
pub fn round_trip()
    ensures lawful { Lawful (ticket_of (round_legs 1 1)) round_book round_request }
    ensures costs { Costs (ticket_of (round_legs 1 1)) round_book round_request 40000 }
    ensures apart { Lawful (ticket_of (round_legs 1 2)) round_book round_request → ⊥ }
{
    label_laws();
}

/// Four slices round a circle, a week apart, on fares of kind R at 20000, 12000, 30000 and 8000, the last
/// filed the other way, all on a rule that allows no stopover: lawful at 35000. A stay between two
/// components is no stopover.
pub fn circle()
    ensures lawful { Lawful (ticket_of circle_legs) circle_book circle_request }
    ensures costs { Costs (ticket_of circle_legs) circle_book circle_request 35000 }
{
    label_laws();
}

/// There to New York on a fare of kind R at 40000, and back from Boston on one at 30000, or from New York to
/// Paris on one at 44000 that is filed from Paris: one open jaw of 35000, one of 42000. Back from Boston to
/// Paris there are two gaps, and no ticket has these components, whatever their labels.
pub fn open_jaw()
    ensures lawful { Lawful (ticket_of (jaw_legs bos lon boston_fare 1 1)) (jaw_book bos lon boston_fare) (jaw_request bos lon boston_fare) }
    ensures costs { Costs (ticket_of (jaw_legs bos lon boston_fare 1 1)) (jaw_book bos lon boston_fare) (jaw_request bos lon boston_fare) 35000 }
    ensures other_lawful { Lawful (ticket_of (jaw_legs nyc par paris_fare 1 1)) (jaw_book nyc par paris_fare) (jaw_request nyc par paris_fare) }
    ensures other_costs { Costs (ticket_of (jaw_legs nyc par paris_fare 1 1)) (jaw_book nyc par paris_fare) (jaw_request nyc par paris_fare) 42000 }
    ensures two_gaps { (u v : ℕ) → Lawful (ticket_of (jaw_legs bos par far_fare u v)) (jaw_book bos par far_fare) (jaw_request bos par far_fare) → ⊥ }
{
    label_laws();
}

/// A round trip from New York to Chicago at 10000 inside one from London to New York at 40000: lawful at 50000.
pub fn inner_unit()
    ensures lawful { Lawful (ticket_of inner_legs) inner_book inner_request }
    ensures costs { Costs (ticket_of inner_legs) inner_book inner_request 50000 }
{
    label_laws();
}

/// Requests: of several reasons the first is told, in the order slices, party, best, window, same place,
/// unknown place. A day of sale out of the century is told as a window.
pub fn requests()
    ensures allowed { judged (lon ∷ nyc ∷ []) one_way_request ≡ None }
    ensures slices { judged [] (record { sale = pos 0; party = 0; best = 0; slices = [] }) ≡ Some Slices }
    ensures party { judged [] (asked 10 0 0 lon) ≡ Some Party }
    ensures best { judged [] (asked 9 1001 0 lon) ≡ Some BestCount }
    ensures window { judged [] (asked 9 1000 8 lon) ≡ Some Window }
    ensures sale { judged [] (record (asked 9 1000 7 lon) { sale = pos 47482 }) ≡ Some Window }
    ensures same_place { judged [] (asked 9 1000 7 lon) ≡ Some SamePlace }
    ensures unknown { judged (lon ∷ par ∷ []) (asked 9 1000 7 nyc) ≡ Some UnknownPlace }
    ensures alone { judged_alone (asked 9 1000 7 nyc) ≡ None }
{}

/// Labels: three units that stand on both sides of one boundary are no ticket, such as three each inside
/// the one before; two are. Labels are
/// numbered from 1 by first appearance.
pub fn labels()
    ensures three { (t : Ticket) (b : Book) (q : Request) → map (λ c. c.unit) t.components ≡ 1 ∷ 2 ∷ 3 ∷ 1 ∷ 2 ∷ 3 ∷ [] → Lawful t b q → ⊥ }
    ensures nested { (t : Ticket) (b : Book) (q : Request) → map (λ c. c.unit) t.components ≡ 1 ∷ 2 ∷ 3 ∷ 3 ∷ 2 ∷ 1 ∷ [] → Lawful t b q → ⊥ }
    ensures two { AtMostTwoStraddle (1 ∷ 2 ∷ 1 ∷ 3 ∷ 2 ∷ 3 ∷ []) }
    ensures numbered { Numbered 0 (1 ∷ 2 ∷ 1 ∷ 3 ∷ 2 ∷ 3 ∷ []) }
    ensures from_one { Numbered 0 (2 ∷ 1 ∷ []) → ⊥ }
    ensures no_gap { Numbered 0 (1 ∷ 3 ∷ []) → ⊥ }
{
    label_laws();
}

/// The table of units: out and back is a round trip and no open jaw, one surface gap makes an open jaw,
/// two make nothing, and a circle's last fare alone is filed the other way.
pub fn units()
    ensures round_trip { IsUnit RoundTrip (forward lon nyc ∷ backward nyc lon ∷ []) }
    ensures no_jaw { IsUnit OpenJaw (forward lon nyc ∷ backward nyc lon ∷ []) → ⊥ }
    ensures jaw { IsUnit OpenJaw (forward lon nyc ∷ backward par lon ∷ []) }
    ensures other_jaw { IsUnit OpenJaw (forward lon nyc ∷ backward nyc par ∷ []) }
    ensures two_gaps { IsUnit OpenJaw (forward lon nyc ∷ backward par rom ∷ []) → ⊥ }
    ensures circle { IsUnit Circle (forward lon par ∷ forward par rom ∷ backward rom lon ∷ []) }
    ensures all_forward { IsUnit Circle (forward lon par ∷ forward par rom ∷ forward rom lon ∷ []) → ⊥ }
    ensures no_circle { IsUnit Circle (forward lon nyc ∷ backward nyc lon ∷ []) → ⊥ }
{}

/// Days: 3 March 2031 is a Monday, the first Sunday after it is the 9th, and the first Sunday after the
/// 9th is the 16th. A stay of three days with a Sunday lasts from the 3rd to the 9th.
pub fn days()
    ensures monday { weekday (pos 22341) ≡ 1 }
    ensures sunday { first_sunday_after (pos 22341) ≡ pos 22347 }
    ensures strictly { first_sunday_after (pos 22347) ≡ pos 22354 }
    ensures stays { MinStayHolds with_sunday (pos 22341) (pos 22347) }
    ensures too_short { MinStayHolds with_sunday (pos 22341) (pos 22346) → ⊥ }
{}

/// Prices: a stay of a day is no stopover and one of a minute more is, which costs its charge. Half of a
/// fare of kind R is taken, and neither the charge nor the surcharge of each flight is halved.
pub fn prices()
    ensures transfer { stopovers (first_flight ∷ after_minutes 1440 ∷ []) ≡ 0 }
    ensures stopover { stopovers (first_flight ∷ after_minutes 1441 ∷ []) ≡ 1 }
    ensures without { price_of (first_flight ∷ after_minutes 1440 ∷ []) charged ≡ 11000 }
    ensures with_charge { price_of (first_flight ∷ after_minutes 1441 ∷ []) charged ≡ 18000 }
{}

/// The order: of two tickets at one price the one whose code is less from the left comes first, here by
/// the fare basis R1 before Y1.
pub fn order()
    ensures less { Before 45000 (1 ∷ 0 ∷ 1033 ∷ basis_number r1 ∷ 1 ∷ 0 ∷ 1 ∷ 1 ∷ 1033 ∷ basis_number y1 ∷ 3 ∷ 0 ∷ []) 45000 (1 ∷ 0 ∷ 1033 ∷ basis_number y1 ∷ 1 ∷ 0 ∷ 1 ∷ 1 ∷ 1033 ∷ basis_number r1 ∷ 3 ∷ 0 ∷ []) }
    ensures cheaper { Before 44999 (1 ∷ 5 ∷ []) 45000 (1 ∷ 0 ∷ []) }
    ensures number { basis_number y1 ≡ 3327747152473 }
    ensures carrier { carrier_number qx ≡ 1033 }
{}
