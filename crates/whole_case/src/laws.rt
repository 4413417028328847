//! Bytes have one reading, and what they ask is right.
ghost use Rattle.std.specs.Prelude.{◌≡◌, ℕ, true, List, length, Option, None, Ok, IfSome};
ghost use Rattle.std.specs.Int.{IsInRange};
ghost use Rattle.case_text.specs.declared.kinds.CaseKind.{CaseKind as Kind};
ghost use Rattle.fare_law.specs.Requests.{judged, known_places};
ghost use Rattle.whole_case.specs.Cases.{asked_case, calendar_case, check_case, search_case, verdict_case};
ghost use Rattle.whole_case.specs.Calendars.{spans_fit};
ghost use Rattle.whole_case.specs.declared.calendar.CalendarCase.{CalendarCase as Spanned};
ghost use Rattle.whole_case.specs.declared.check.CheckCase.{CheckCase as Checked};
ghost use Rattle.whole_case.specs.declared.search.SearchCase.{SearchCase as Found};
ghost use Rattle.whole_case.specs.declared.verdict.VerdictCase.{VerdictCase as Ticketed};
ghost use Rattle.whole_case.specs.Stages.{IsOne};

use certificate_text::one_reading;
use fare_book::{one_fault_of_filings, one_fault_of_seats};
use fare_law::MOST_TICKETS;
use schedule_book::{one_fault_of_rows, one_list_of_flights};

/// Bytes ask one thing at most, or have one first refusal before what their kind of case has more.
fn one_asked_case()
    ensures { (kind : Kind) (at : Option ℕ) (bytes : List ℕ) → IsOne (asked_case kind at bytes) }
{
    one_list_of_flights();
    one_fault_of_rows();
    one_fault_of_filings();
    one_fault_of_seats();
}

/// Bytes spell one case of a search at most, or have one first refusal, and not both.
pub fn one_search_case()
    ensures { (best at : Option ℕ) (bytes : List ℕ) → IsOne (search_case best at bytes) }
{
    one_asked_case();
}

/// Bytes spell one case of a check at most, or have one first refusal, and not both.
pub fn one_check_case()
    ensures { (best at : Option ℕ) (bytes : List ℕ) → IsOne (check_case best at bytes) }
{
    one_asked_case();
    one_reading();
}

/// Bytes spell one case of a calendar at most, or have one first refusal, and not both.
pub fn one_calendar_case()
    ensures { (outs backs : ℕ) (at : Option ℕ) (bytes : List ℕ) → IsOne (calendar_case outs backs at bytes) }
{
    one_asked_case();
}

/// Bytes spell one case of a verdict at most, or have one first refusal, and not both.
pub fn one_verdict_case()
    ensures { (at : Option ℕ) (bytes : List ℕ) → IsOne (verdict_case at bytes) }
{
    one_asked_case();
}

/// What a case that is spelled asks is refused for no reason in its book, also where another number of
/// tickets within the limits is put in.
pub fn spelled_requests_are_right()
    ensures search { (best at : Option ℕ) (bytes : List ℕ) (found : Found) → IfSome best (IsInRange 1 MOST_TICKETS)
        → search_case best at bytes (Ok found) → judged (known_places found.book) found.request ≡ None }
    ensures check { (best at : Option ℕ) (bytes : List ℕ) (found : Checked) → IfSome best (IsInRange 1 MOST_TICKETS)
        → check_case best at bytes (Ok found) → judged (known_places found.book) found.request ≡ None }
    ensures calendar { (outs backs : ℕ) (at : Option ℕ) (bytes : List ℕ) (found : Spanned) → calendar_case outs backs at bytes (Ok found)
        → judged (known_places found.book) found.request ≡ None }
    ensures verdict { (at : Option ℕ) (bytes : List ℕ) (found : Ticketed) → verdict_case at bytes (Ok found) → judged (known_places found.book) found.request ≡ None }
{}

/// A calendar's case that is spelled has two slices, and each has the days of the calendar.
pub fn spelled_calendars_fit()
    ensures two { (outs backs : ℕ) (at : Option ℕ) (bytes : List ℕ) (found : Spanned) → calendar_case outs backs at bytes (Ok found) → length found.request.slices ≡ 2 }
    ensures spans { (outs backs : ℕ) (at : Option ℕ) (bytes : List ℕ) (found : Spanned) → calendar_case outs backs at bytes (Ok found)
        → spans_fit outs backs found.request.slices ≡ true }
{}
