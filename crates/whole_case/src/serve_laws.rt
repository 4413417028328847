//! Bytes have one reading as the case of a serving run, and what they ask is right.
ghost use Rattle.std.specs.Prelude.{◌≡◌, ℕ, List, Option, None, Ok, IfSome};
ghost use Rattle.std.specs.Int.{IsInRange};
ghost use Rattle.fare_law.specs.Lists.{Each};
ghost use Rattle.fare_law.specs.Requests.{judged, known_places};
ghost use Rattle.whole_case.specs.ServeCases.{serve_case};
ghost use Rattle.whole_case.specs.Stages.{IsOne};
ghost use Rattle.whole_case.specs.declared.serve.ServeCase.{ServeCase as Found};

use fare_book::{one_fault_of_filings, one_fault_of_seats};
use fare_law::MOST_TICKETS;
use schedule_book::{one_fault_of_rows, one_list_of_flights};
use script_text::one_reading;

/// Bytes spell one case of a serving run at most, or have one first refusal, and not both.
pub fn one_serve_case()
    ensures { (best : Option ℕ) (bytes : List ℕ) → IsOne (serve_case best bytes) }
{
    one_list_of_flights();
    one_fault_of_rows();
    one_fault_of_filings();
    one_fault_of_seats();
    one_reading();
}

/// Each request of a serving run's case that is spelled is refused for no reason in its book, also where another number
/// of tickets within the limits is put in.
pub fn spelled_asks_are_right()
    ensures { (best : Option ℕ) (bytes : List ℕ) (found : Found) → IfSome best (IsInRange 1 MOST_TICKETS) → serve_case best bytes (Ok found)
        → Each (λ q. judged (known_places found.book) q ≡ None) found.requests }
{}
