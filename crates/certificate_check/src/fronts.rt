//! The departures of one front.
ghost use Rattle.std.specs.Prelude.{◌≡◌, ◌↔◌, ◌++◌, ◌∷◌, ◌<◌, ◌+◌, [], IfOk, IsTrue, MatchBool, MatchOption, OnOk, length, map};
ghost use Rattle.certificate.specs.DepartureCheck.{ComesAfter, IsFront};
ghost use Rattle.certificate_check.specs.Drawings.{AreDrawings};
ghost use Rattle.certificate_check.specs.Fronts.{FrontFails, FrontHolds, LeadsTo, TakenByAny, UntakenFirst};
ghost use Rattle.certificate_check.specs.Tables.{HasRows, IsLater};
ghost use Rattle.fare_law.specs.Best.{Before};
ghost use Rattle.fare_law.specs.Codes.{run_code};
ghost use Rattle.fare_law.specs.Limits.{IsRequest};
ghost use Rattle.fare_law.specs.Lists.{AllDifferent};
ghost use Rattle.fare_law.specs.declared.limits.TheConstants.{MOST_COMPONENTS};

use crate::drawings::Drawings;
use crate::table::Table;
use crate::taking::{count_beginning, is_taken};
use certificate::CertAnswer;
use fare_law::{ArrayVec, MOST_COMPONENTS, Mem, Move, Request};
use residual_keys::{Residual, one_next};
use residual_table::ResidualKey;
use search_steps::{LeastMove, SearchSteps};
use std::cmp::Ordering;
use ticket_order::{cmp_key, code, order_laws};

/// A front, and where it leads to from the root, at what price.
#[derive(Clone, Copy)]
pub struct Front<'c> {
    pub moves: &'c [Move],
    pub residual: Residual,
    pub price: u128,
}

/// Whether each departure at a front comes after the last answer.
pub fn front_holds(
    steps: &mut SearchSteps,
    table: &Table,
    answers: &[CertAnswer],
    drawings: &mut Drawings,
    front: &Front,
) -> Result<bool, Mem>
    requires request { IsRequest steps.old.case.request.now }
    requires differ { AllDifferent (map (λ row. row.residual) table.now.rows.now) }
    requires table { HasRows steps.old table.now.bounds table.now.rows.now }
    requires drawings { AreDrawings steps.old table.now.rows.now drawings.old.kept.items }
    requires short { length front.now.moves.now < MOST_COMPONENTS }
    requires front { IsFront answers.now front.now.moves.now }
    requires leads { LeadsTo steps.old.case.book.now steps.old.case.request.now front.now.moves.now front.now.residual front.now.price }
    ensures holds { IfOk result (λ holds. MatchBool holds (FrontHolds steps.old.case.book.now steps.old.case.request.now table.now.rows.now answers.now front.now.moves.now)
        (FrontFails steps.old.case.book.now steps.old.case.request.now table.now.rows.now answers.now front.now.moves.now)) }
    ensures drawings { OnOk result (AreDrawings steps.new table.now.rows.now drawings.new.kept.items) }
    ensures later { IsLater steps.old steps.new }
{
    order_laws();
    one_next();
    let key = steps.key_of(front.residual)?;
    let wanted = count_beginning(answers, front.moves) + 1;
    let place = drawings.find(steps, table, key, wanted)?;
    let least = &drawings.kept[place].moves;
    match first_departing(answers, front.moves, least.as_slice()) {
        Some(departing) => Ok(comes_after(steps.case().request, answers, front, departing)),
        None => Ok(true),
    }
}

/// The first of these moves that no answer takes after a front.
fn first_departing<'m>(
    answers: &[CertAnswer],
    front: &[Move],
    moves: &'m [LeastMove<ResidualKey>],
) -> Option<&'m LeastMove<ResidualKey>>
    ensures { MatchOption result (TakenByAny answers.now front.now moves.now) (λ m. UntakenFirst answers.now front.now moves.now m.now) }
{
    for departing in moves {
        if !is_taken(answers, front, &departing.mv) {
            return Some(departing);
        }
    }
    None
}

/// Whether a departure comes after the last of as many answers as are asked for.
fn comes_after(
    request: &Request,
    answers: &[CertAnswer],
    front: &Front,
    departing: &LeastMove<ResidualKey>,
) -> bool
    requires { length front.now.moves.now < MOST_COMPONENTS }
    ensures { IsTrue result ↔ ComesAfter request.now answers.now (front.now.moves.now ++ departing.now.mv ∷ []) (front.now.price + departing.now.total) }
{
    if answers.len() != request.best as usize {
        return false;
    }
    match answers.last() {
        Some(last) => is_before(last, front, departing),
        None => false,
    }
}

/// Whether an answer comes before a departure.
fn is_before(last: &CertAnswer, front: &Front, departing: &LeastMove<ResidualKey>) -> bool
    requires { length front.now.moves.now < MOST_COMPONENTS }
    ensures { IsTrue result ↔ Before last.now.price (run_code last.now.moves) (front.now.price + departing.now.total) (run_code (front.now.moves.now ++ departing.now.mv ∷ [])) }
{
    let price = u128::from(last.price);
    if price < front.price || price - front.price < departing.total {
        return true;
    }
    if departing.total < price - front.price {
        return false;
    }
    let moves = with_move(front.moves, &departing.mv);
    let departing_code = code(moves.as_slice());
    let last_code = code(last.moves.as_slice());
    matches!(cmp_key(0, &last_code, 0, &departing_code), Ordering::Less)
}

/// The moves and one more.
fn with_move(moves: &[Move], mv: &Move) -> ArrayVec<Move, MOST_COMPONENTS>
    requires { length moves.now < MOST_COMPONENTS }
    ensures { result ≡ moves.now ++ mv.now ∷ [] }
{
    let mut all = ArrayVec::new();
    for each in moves {
        all.push(each.copied());
    }
    all.push(mv.copied());
    all
}
