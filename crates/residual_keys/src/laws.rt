//! The theorems on residuals, moves and runs, for the crates above: a function calls the law it
//! stands on, and has its clauses.
ghost use Rattle.fare_law.specs.declared.moves.Move.{Move};
ghost use Rattle.fare_law.specs.declared.requests.Request.{Request};
ghost use Rattle.fare_law.specs.declared.tickets.Ticket.{Ticket};
ghost use Rattle.fare_law.specs.Book.{Book};
ghost use Rattle.fare_law.specs.Lawful.{Lawful};
ghost use Rattle.fare_law.specs.Limits.{IsRequest};
ghost use Rattle.fare_law.specs.Lists.{Matched};
ghost use Rattle.fare_law.specs.Best.{Best, Cheaper};
ghost use Rattle.fare_law.specs.Limits.{HasKeys};
ghost use Rattle.fare_law.specs.Flights.{Ascending};
ghost use Rattle.residual_keys.specs.Kept.{IsResidual};
ghost use Rattle.residual_keys.specs.NothingLost.{OneTicket, RunsAreTickets, SameCompletions, TicketsAreRuns};
ghost use Rattle.residual_keys.specs.OneNext.{MoveLeavesOne, MovesLeadToOne, RunGoesOn, RunHasKeys};
ghost use Rattle.residual_keys.specs.Residuals.{RunFromRoot, State};
ghost use Rattle.residual_keys.specs.ResidualOrder.{IsStrictOrder, StateBefore};
ghost use Rattle.residual_keys.specs.Searches.{AreNeeded, BestRuns, Drawn, IsSize, ReachesMoreThan, TicketOf};
ghost use Rattle.residual_keys.specs.Short.{FliesFew, MoveGoesOn, ReachedFits, RootRunIsShort, RunIsShort};
ghost use Rattle.residual_keys.specs.Written.{InLimits, MovesKeepTexts, ReachedIsWritten, RootIsWritten, RunsHaveCodes};
ghost use Rattle.std.specs.declared.cmp.Ordering.TheVariants.{Equal, Less};
ghost use Rattle.std.specs.Prelude.{List, length, ℕ, ◌≡◌, ◌≤◌, ◌<◌, ◌↔◌, ◌⊎◌};

use crate::Residual;
use fare_law::{MOST_COMPONENTS, MOST_SLICES};
use fare_rules::rules_stay_in_range;
use ticket_order::{codes_tell, order_laws};

/// Nothing is lost: where the timetable's flights stand in the order of their departures, a list of
/// moves is a run from the root exactly where it is the moves of a lawful ticket, and then of one,
/// with the run's price. Where two lists of moves lead to one residual, what completes the one
/// completes the other. A lawful ticket of at most `MOST_SLICES` slices has at most `MOST_COMPONENTS` components.
pub fn nothing_lost()
    ensures runs { (b : Book) (q : Request) → Ascending b.timetable.flights → RunsAreTickets b q }
    ensures tickets { (b : Book) (q : Request) → TicketsAreRuns b q }
    ensures one { (b : Book) (q : Request) → OneTicket b q }
    ensures same { (b : Book) (q : Request) → Ascending b.timetable.flights → SameCompletions b q }
    ensures few { (b : Book) (q : Request) (t : Ticket) → length q.slices ≤ MOST_SLICES → Lawful t b q → length t.components ≤ MOST_COMPONENTS }
{}

/// A move leaves one residual, so a list of moves leads to one, and a run that begins with the list
/// goes on from there. Where the live fares' keys are well formed, so are those of a run's moves.
pub fn one_next()
    ensures one { (b : Book) (q : Request) → MoveLeavesOne b q }
    ensures leads { (b : Book) (q : Request) → MovesLeadToOne b q }
    ensures further { (b : Book) (q : Request) → RunGoesOn b q }
    ensures keys { (b : Book) (q : Request) → HasKeys b → RunHasKeys b q }
{}

/// The least runs from the root, as tickets, are the best tickets.
pub fn best_runs()
    ensures best { (b : Book) (q : Request) (ds : List Drawn) (ts : List Ticket) → BestRuns b q q.best ds → Matched (TicketOf b q) ds ts → Best b q ts }
    ensures tickets { (b : Book) (q : Request) → Ascending b.timetable.flights → (ds : List Drawn) → BestRuns b q q.best ds → (ts : List Ticket) × Matched (TicketOf b q) ds ts × Best b q ts }
{}

/// The order in which the rows of a certificate stand is strict and total, and the comparison of
/// residuals tells it. So there is one list of the residuals that a search needs.
pub fn residual_order()
    ensures order { IsStrictOrder StateBefore }
    ensures before { (x y : State) → IsResidual x → IsResidual y → (⟦<Residual as Ord>⟧.cmp x y ≡ Less) ↔ StateBefore x y }
    ensures same { (x y : State) → IsResidual x → IsResidual y → (⟦<Residual as Ord>⟧.cmp x y ≡ Equal) ↔ (x ≡ y) }
    ensures need { (b : Book) (q : Request) (xs ys : List State) → AreNeeded StateBefore b q xs → AreNeeded StateBefore b q ys → xs ≡ ys }
{}

/// The order of tickets by price and code is strict, and total on the lawful tickets of a book whose
/// live fares' keys are well formed. So there is one list of the best tickets, and one of the least runs.
pub fn one_best()
    ensures never { (b : Book) (q : Request) (t : Ticket) → Cheaper b q t t → ⊥ }
    ensures further { (b : Book) (q : Request) (t u v : Ticket) → Cheaper b q t u → Cheaper b q u v → Cheaper b q t v }
    ensures total { (b : Book) (q : Request) → HasKeys b → (t u : Ticket) → Lawful t b q → Lawful u b q → Cheaper b q t u ⊎ ((t ≡ u) ⊎ Cheaper b q u t) }
    ensures runs { (b : Book) (q : Request) → HasKeys b → (ds es : List Drawn) → BestRuns b q q.best ds → BestRuns b q q.best es → ds ≡ es }
    ensures tickets { (b : Book) (q : Request) → HasKeys b → (ts us : List Ticket) → Best b q ts → Best b q us → ts ≡ us }
{
    codes_tell();
    order_laws();
}

/// Runs are short: from slice s and leg m of n slices lead at most 3 (n - s) - m flights, so a run from
/// the root has at most three moves a slice, and so at most `MOST_COMPONENTS`. Each move raises
/// the slice or the leg, and what moves from the root lead to is a position of the request.
pub fn runs_are_short()
    ensures flights { (b : Book) (q : Request) → FliesFew b q }
    ensures raised { (b : Book) (q : Request) → MoveGoesOn b q }
    ensures runs { (b : Book) (q : Request) → RunIsShort b q }
    ensures root { (b : Book) (q : Request) → RootRunIsShort b q }
    ensures six { (b : Book) (q : Request) (ms : List Move) (price : ℕ) → length q.slices ≤ MOST_SLICES → RunFromRoot b q ms price → length ms ≤ MOST_COMPONENTS }
    ensures fits { (b : Book) (q : Request) → ReachedFits b q }
{}

/// The size of a search is one number, and more residuals than n are reached exactly where it is
/// greater than n.
pub fn one_size()
    ensures one { (b : Book) (q : Request) (m n : ℕ) → IsSize b q m → IsSize b q n → m ≡ n }
    ensures more { (b : Book) (q : Request) (size n : ℕ) → IsSize b q size → ReachesMoreThan n b q ↔ (n < size) }
{}

/// What a search reaches has a text, and the code of a run from the root is that of its moves alone:
/// where the book and the request are within their limits, names have their characters, and numbers
/// fit their fields.
pub fn reached_is_written()
    ensures root { (b : Book) (q : Request) → InLimits b → IsRequest q → RootIsWritten b q }
    ensures moves { (b : Book) (q : Request) → InLimits b → IsRequest q → MovesKeepTexts b q }
    ensures reached { (b : Book) (q : Request) → InLimits b → IsRequest q → ReachedIsWritten b q }
    ensures codes { (b : Book) (q : Request) → InLimits b → length q.slices ≤ MOST_SLICES → RunsHaveCodes b q }
{
    rules_stay_in_range();
}
