//! The departure check.
ghost use Rattle.std.specs.Prelude.{◌≡◌, ◌↔◌, ◌≤◌, ◌<◌, ◌^◌, IfOk, IsTrue, MatchBool, MatchOption, OnOk, length, map, slice_get, take, Some};
ghost use Rattle.certificate.specs.DepartureCheck.{DeparturesFail, DeparturesHold, IsFront};
ghost use Rattle.certificate_check.specs.Drawings.{AreDrawings};
ghost use Rattle.certificate_check.specs.Fronts.{AnswerFails, AnswerHolds, FrontFails, FrontHolds, IsHad, LeadsTo};
ghost use Rattle.certificate_check.specs.Tables.{HasRows, IsLater};
ghost use Rattle.fare_law.specs.Limits.{IsRequest};
ghost use Rattle.fare_law.specs.Lists.{AllDifferent, Each};
ghost use Rattle.certificate.specs.declared.parts.CertAnswer.{CertAnswer as AnyAnswer};
ghost use Rattle.fare_law.specs.declared.limits.TheConstants.{MOST_COMPONENTS};

use crate::drawings::Drawings;
use crate::fronts::{Front, front_holds};
use crate::stepping::{goes_on, move_price};
use crate::table::Table;
use crate::taking::begins_with;
use certificate::CertAnswer;
use fare_law::{Mem, Move};
use residual_keys::root;
use search_steps::SearchSteps;
use std::alloc::Global;

/// The place where the departure check fails, if it does.
pub fn departures_fail(
    alloc: Global,
    steps: &mut SearchSteps,
    table: &Table,
    answers: &[CertAnswer],
) -> Result<Option<u32>, Mem>
    requires request { IsRequest steps.old.case.request.now }
    requires differ { AllDifferent (map (λ row. row.residual) table.now.rows.now) }
    requires table { HasRows steps.old table.now.bounds table.now.rows.now }
    requires few { length answers.now < 2 ^ 32 }
    ensures fails { IfOk result (λ place. MatchOption place (DeparturesHold steps.old.case.book.now steps.old.case.request.now table.now.rows.now answers.now)
        (DeparturesFail steps.old.case.book.now steps.old.case.request.now table.now.rows.now answers.now)) }
    ensures later { IsLater steps.old steps.new }
{
    let case = steps.case();
    let residual = root(case.book, case.request);
    let front = Front {
        moves: &[],
        residual,
        price: 0,
    };
    let mut drawings = Drawings::new(alloc);
    if !front_holds(steps, table, answers, &mut drawings, &front)? {
        return Ok(Some(0));
    }
    for i in 0..answers.len() {
        if !answer_holds(steps, table, answers, &mut drawings, i)? {
            return Ok(Some(i as u32 + 1));
        }
    }
    Ok(None)
}

/// Whether the fronts of an answer hold, but for that of no move, where those of all answers before it do.
fn answer_holds(
    steps: &mut SearchSteps,
    table: &Table,
    answers: &[CertAnswer],
    drawings: &mut Drawings,
    i: usize,
) -> Result<bool, Mem>
    requires request { IsRequest steps.old.case.request.now }
    requires differ { AllDifferent (map (λ row. row.residual) table.now.rows.now) }
    requires table { HasRows steps.old table.now.bounds table.now.rows.now }
    requires drawings { AreDrawings steps.old table.now.rows.now drawings.old.kept.items }
    requires there { i < length answers.now }
    requires before { Each (AnswerHolds steps.old.case.book.now steps.old.case.request.now table.now.rows.now answers.now) (take i answers.now) }
    ensures holds { IfOk result (λ holds. (a : AnyAnswer) → slice_get answers.now i ≡ Some a
        → MatchBool holds (AnswerHolds steps.old.case.book.now steps.old.case.request.now table.now.rows.now answers.now a)
        (AnswerFails steps.old.case.book.now steps.old.case.request.now table.now.rows.now answers.now a)) }
    ensures drawings { OnOk result (AreDrawings steps.new table.now.rows.now drawings.new.kept.items) }
    ensures later { IsLater steps.old steps.new }
{
    let case = steps.case();
    let moves = answers[i].moves.as_slice();
    let mut residual = root(case.book, case.request);
    let mut price = 0;
    for taken in 1..moves.len() {
        let mv = &moves[taken - 1];
        let Some(after) = goes_on(case.book, case.request, &residual, mv) else {
            return Ok(true);
        };
        let Some(cost) = move_price(case.book, mv) else {
            return Ok(true);
        };
        residual = after;
        price += u128::from(cost);
        let front = Front {
            moves: &moves[..taken],
            residual,
            price,
        };
        if !later_holds(steps, table, answers, drawings, i, &front)? {
            return Ok(false);
        }
    }
    Ok(true)
}

/// Whether a front of some move holds, where those of all answers before the answer at this place do.
fn later_holds(
    steps: &mut SearchSteps,
    table: &Table,
    answers: &[CertAnswer],
    drawings: &mut Drawings,
    i: usize,
    front: &Front,
) -> Result<bool, Mem>
    requires request { IsRequest steps.old.case.request.now }
    requires differ { AllDifferent (map (λ row. row.residual) table.now.rows.now) }
    requires table { HasRows steps.old table.now.bounds table.now.rows.now }
    requires drawings { AreDrawings steps.old table.now.rows.now drawings.old.kept.items }
    requires there { i < length answers.now }
    requires before { Each (AnswerHolds steps.old.case.book.now steps.old.case.request.now table.now.rows.now answers.now) (take i answers.now) }
    requires some { 1 ≤ length front.now.moves.now }
    requires short { length front.now.moves.now < MOST_COMPONENTS }
    requires front { IsFront answers.now front.now.moves.now }
    requires leads { LeadsTo steps.old.case.book.now steps.old.case.request.now front.now.moves.now front.now.residual front.now.price }
    ensures holds { IfOk result (λ holds. MatchBool holds (FrontHolds steps.old.case.book.now steps.old.case.request.now table.now.rows.now answers.now front.now.moves.now)
        (FrontFails steps.old.case.book.now steps.old.case.request.now table.now.rows.now answers.now front.now.moves.now)) }
    ensures drawings { OnOk result (AreDrawings steps.new table.now.rows.now drawings.new.kept.items) }
    ensures later { IsLater steps.old steps.new }
{
    if is_had(&answers[..i], front.moves) {
        return Ok(true);
    }
    front_holds(steps, table, answers, drawings, front)
}

/// Whether some answer begins with a front.
fn is_had(answers: &[CertAnswer], front: &[Move]) -> bool
    ensures { IsTrue result ↔ IsHad answers.now front.now }
{
    for answer in answers {
        if begins_with(answer, front) {
            return true;
        }
    }
    false
}
