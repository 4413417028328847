//! The search.
ghost use Rattle.std.specs.Prelude.{IfErr, IfOk, None, OnOk, ◌≡◌};
ghost use Rattle.certificate.specs.Checks.{Checks};
ghost use Rattle.fare_component.specs.Keys.{Asked, asked};
ghost use Rattle.fare_law.specs.declared.market.OfferKey.{OfferKey};
ghost use Rattle.fare_law.specs.Limits.{IsRequest};
ghost use Rattle.fare_law.specs.Requests.{judged, known_places};
ghost use Rattle.graph_walk.specs.Steps.{AreLive, rows_of};
ghost use Rattle.pricing_graph.specs.Graphs.{IsGraph};
ghost use Rattle.residual_keys.specs.AskedKeys.{Keys};
ghost use Rattle.search_core.specs.Answers.{HasCause, IsAnswer, Searchable};
ghost use Rattle.search_steps.specs.Keys.{live, state};

use crate::answering::{answer_of, answers_meet_checks};
use crate::rows::rows_of;
use crate::runs::answers_of;
use crate::{Answer, SearchFault, request_ok};
use fare_book::Book;
use fare_component::OfferSource;
use fare_law::{Mem, Request};
use pricing_graph::Graph;
use search_steps::SearchSteps;
use std::alloc::Global;

/// The best lawful tickets of a request on a book, each with its price, and the certificate of the
/// search, which meets the five checks. A request that is none is refused as `request_ok` refuses it; the
/// search is too large exactly where more residuals are reached than the budget. After `Ok` whatever the
/// keys of the search ask for is settled with the source of offers.
pub fn search<O: OfferSource>(
    alloc: Global,
    book: &Book,
    request: &Request,
    budget: u32,
    offers: &mut O,
) -> Result<Answer, SearchFault>
    ensures answer { IfOk result (IsAnswer book.now request.now) }
    ensures checks { IfOk result (λ a. Checks a.certificate book.now request.now) }
    ensures fits { OnOk result (Searchable book.now request.now budget) }
    ensures cause { IfErr result (HasCause book.now request.now budget) }
    ensures settled { OnOk result ((key : OfferKey) → Keys book.now request.now key → O.settled offers.new (asked key)) }
    ensures base { O.base offers.new ≡ O.base offers.old }
    ensures stays { (a : Asked) → O.settled offers.old a → O.settled offers.new a }
{
    request_ok(book, request)?;
    let mut steps = SearchSteps::new(alloc, book, request);
    searched(alloc, budget, &mut steps, offers)
}

/// The answer of a request that is right, with the steps of its search.
fn searched<O: OfferSource>(
    alloc: Global,
    budget: u32,
    steps: &mut SearchSteps,
    offers: &mut O,
) -> Result<Answer, SearchFault>
    requires request { IsRequest steps.old.case.request.now }
    requires right { judged (known_places steps.old.case.book.now) steps.old.case.request.now ≡ None }
    ensures answer { IfOk result (IsAnswer steps.old.case.book.now steps.old.case.request.now) }
    ensures checks { IfOk result (λ a. Checks a.certificate steps.old.case.book.now steps.old.case.request.now) }
    ensures fits { OnOk result (Searchable steps.old.case.book.now steps.old.case.request.now budget) }
    ensures cause { IfErr result (HasCause steps.old.case.book.now steps.old.case.request.now budget) }
    ensures settled { OnOk result ((key : OfferKey) → Keys steps.old.case.book.now steps.old.case.request.now key → O.settled offers.new (asked key)) }
    ensures base { O.base offers.new ≡ O.base offers.old }
    ensures stays { (a : Asked) → O.settled offers.old a → O.settled offers.new a }
{
    let case = steps.case();
    answers_meet_checks(case.book, case.request);
    let graph = Graph::build(alloc, budget, steps, offers)?;
    Ok(answer_by(alloc, &graph, steps)?)
}

/// The answer of a graph with its steps.
fn answer_by(alloc: Global, graph: &Graph, steps: &mut SearchSteps) -> Result<Answer, Mem>
    requires request { IsRequest steps.old.case.request.now }
    requires live { AreLive (live steps.old) graph.now.rows.entries }
    requires graph { IsGraph steps.old.case.book.now steps.old.case.request.now (rows_of (state steps.old) graph.now.rows.entries) }
    ensures { IfOk result (IsAnswer steps.old.case.book.now steps.old.case.request.now) }
{
    let case = steps.case();
    let runs = graph.runs(alloc, steps, u32::from(case.request.best))?;
    let answers = answers_of(alloc, runs)?;
    // The rows take as much room as what runs are found by, which isn't needed any more.
    steps.let_go(alloc);
    let rows = rows_of(alloc, graph, steps)?;
    answer_of(alloc, case.book, case.request, answers, rows)
}
