//! Laws for callers' proofs. They have no code.
ghost use Rattle.fare_law.specs.declared.requests.Request.{Request};
ghost use Rattle.fare_law.specs.Book.{Book};
ghost use Rattle.fare_law.specs.Limits.{IsRequest};
ghost use Rattle.search_check.specs.Accepted.{AddsLines, AddsText, IsAccepted, IsSpelled};
ghost use Rattle.search_check.specs.Texts.{HasText, IsKept};
ghost use Rattle.whole_case.specs.declared.search.SearchCase.{SearchCase};

use certificate::search_meets_checks;
use fare_rules::limits_are_met;
use residual_keys::{one_size, reached_is_written, runs_are_short};
use word_text::{cuts_tell, numbers_tell};

/// The certificate of a search has a text of its own, from which it is read again: its prices and bounds
/// fit 64 bits, its moves and residuals their fields, and it has no more rows than the budget.
pub fn certificates_have_texts()
    ensures { (b : Book) (q : Request) → IsKept b → IsRequest q → HasText b q }
{
    limits_are_met();
    one_size();
    reached_is_written();
    runs_are_short();
    search_meets_checks();
}

/// Where bytes spell the case of a search, bytes with the same sections and the lines of a certificate
/// spell the case of a check with that certificate. So do the same bytes with the certificate's text
/// before the line of `#end`.
pub fn added_certificates_are_spelled()
    ensures lines { IsSpelled AddsLines }
    ensures text { IsSpelled AddsText }
{
    cuts_tell();
    numbers_tell();
}

/// What a search gives is accepted: with its certificate added, by its lines or by its text, the case of
/// the search is the case of a check that meets the checks.
pub fn searches_are_accepted()
    ensures lines { (found : SearchCase) → IsKept found.book → IsRequest found.request → IsAccepted AddsLines found }
    ensures text { (found : SearchCase) → IsKept found.book → IsRequest found.request → IsAccepted AddsText found }
{
    certificates_have_texts();
    added_certificates_are_spelled();
    search_meets_checks();
}
