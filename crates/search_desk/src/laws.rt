//! Searches and replies are what the core of events records. Laws for callers' proofs; they have no code.
ghost use Rattle.std.specs.Prelude.{◌≡◌, ◌≤◌, ℕ, List, Result, IfErr, IfOk, IfSome, None, OnOk, Some, length, take};
ghost use Rattle.search_desk.specs.Events.{IsOfOffers, IsRefusedSearchOf, IsReplyOf, IsSearchOf, outcome_of};
ghost use Rattle.search_desk.specs.Outcomes.{AnswersAsk};
ghost use Rattle.fare_law.specs.Book.{Book};
ghost use Rattle.fare_law.specs.Lists.{Each};
ghost use Rattle.fare_law.specs.Requests.{judged, known_places};
ghost use Rattle.fare_law.specs.declared.filings.Filing.{Filing};
ghost use Rattle.fare_law.specs.declared.requests.Request.{Request as Asked};
ghost use Rattle.fare_law.specs.declared.requests.Why.{Why};
ghost use Rattle.run_core.specs.Worlds.{WorldView};
ghost use Rattle.run_core.specs.declared.events.Event.{Event};
ghost use Rattle.search_core.specs.Answers.{HasCause, IsAnswer, Searchable};
ghost use Rattle.search_core.specs.declared.outcome.Answer.{Answer as Answered};
ghost use Rattle.search_core.specs.declared.outcome.SearchFault.{SearchFault as Fault};
ghost use Rattle.serve_desks.specs.declared.log.Reply.{Reply as Replied};
ghost use Rattle.serve_desks.specs.declared.workload.Ask.{Ask as Question};

/// What `Desk::search` promises of its result, on the version that it saw, makes the search a look, reads and keeps, and an
/// answer of the core: it records the desk, the request, that version and the outcome, or is refused for the same reason.
pub fn searches_are_recorded()
    ensures outcome { (w : WorldView) (desk : ℕ) (q : Asked) (budget : ℕ) (between : List Event) (result : Result Answered Fault) → Each (IsOfOffers desk) between
        → IfOk result (IsAnswer w.book q) → OnOk result (Searchable w.book q budget) → IfErr result (HasCause w.book q budget) → IfSome (outcome_of result) (IsSearchOf w desk q budget between) }
    ensures refused { (w : WorldView) (desk : ℕ) (q : Asked) (budget : ℕ) (between : List Event) (why : Why) → Each (IsOfOffers desk) between
        → judged (known_places w.book) q ≡ Some why → IsRefusedSearchOf w desk q budget between why }
{}

/// A reply of a version is the outcome that the core records for a desk that looked after the first so many entries.
pub fn replies_are_recorded()
    ensures { (opening : Book) (filings : List Filing) (ask : Question) (r : Replied) → r.number ≤ length filings → AnswersAsk ask opening.timetable (take r.number filings) r.body → IsReplyOf opening filings ask r }
{}
