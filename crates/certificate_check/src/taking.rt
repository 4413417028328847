//! Answers that begin with a front, and the moves that they take after it.
ghost use Rattle.std.specs.Prelude.{◌≡◌, ◌↔◌, ◌≤◌, IsTrue, length};
ghost use Rattle.certificate.specs.DepartureCheck.{BeginsWith};
ghost use Rattle.certificate_check.specs.Fronts.{CountsBeginning, IsTaken, Takes};

use certificate::CertAnswer;
use fare_law::Move;

/// How many answers begin with a front.
pub fn count_beginning(answers: &[CertAnswer], front: &[Move]) -> usize
    ensures counts { CountsBeginning front.now answers.now result }
    ensures few { result ≤ length answers.now }
{
    let mut count = 0;
    for answer in answers {
        if begins_with(answer, front) {
            count += 1;
        }
    }
    count
}

/// Whether some answer takes this move after a front.
pub fn is_taken(answers: &[CertAnswer], front: &[Move], mv: &Move) -> bool
    ensures { IsTrue result ↔ IsTaken answers.now front.now mv.now }
{
    for answer in answers {
        if takes(answer, front, mv) {
            return true;
        }
    }
    false
}

/// Whether the moves are a proper front of an answer's.
pub fn begins_with(answer: &CertAnswer, front: &[Move]) -> bool
    ensures { IsTrue result ↔ BeginsWith answer.now front.now }
{
    let moves = answer.moves.as_slice();
    front.len() < moves.len() && are_same(&moves[..front.len()], front)
}

/// Whether an answer takes this move after a front.
fn takes(answer: &CertAnswer, front: &[Move], mv: &Move) -> bool
    ensures { IsTrue result ↔ Takes answer.now front.now mv.now }
{
    begins_with(answer, front) && is_same(&answer.moves.as_slice()[front.len()], mv)
}

/// Whether lists of moves are one.
fn are_same(one: &[Move], other: &[Move]) -> bool
    ensures { IsTrue result ↔ (one.now ≡ other.now) }
{
    *one == *other
}

/// Whether two moves are one.
fn is_same(one: &Move, other: &Move) -> bool
    ensures { IsTrue result ↔ (one.now ≡ other.now) }
{
    *one == *other
}
