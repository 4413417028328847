//! The words of a line, read one after another.
ghost use Rattle.std.specs.Prelude.{◌≡◌, ◌≤◌, ◌++◌, ◌∷◌, [], IfSome, MatchOption, None, Some, codes};
ghost use Rattle.certificate_text.specs.LineReading as Reading;
ghost use Rattle.word_text.specs.Words.{IsFreeOf};

use fare_law::{ArrayVec, MOST_COMPONENTS, MOST_FLIGHTS_OF_A_COMPONENT, Move, Role};
use name_text::{basis_of, carrier_of};
use word_text::number_of;

/// What stands after the label.
pub fn after<'a>(label: &[u8], text: &'a [u8]) -> Option<&'a [u8]>
    ensures { MatchOption result (Reading.after_label label.now text.now ≡ None)
        (λ rest. Reading.after_label label.now text.now ≡ Some rest.now) }
{
    let rest = text.strip_prefix(label)?;
    Some(rest)
}

/// What stands after the label of a row.
#[tactic(auto, unfolding(crate::specs::LineReading::after_label))]
pub fn after_row(text: &[u8]) -> Option<&[u8]>
    ensures { MatchOption result (Reading.after_label (codes "row ") text.now ≡ None)
        (λ rest. Reading.after_label (codes "row ") text.now ≡ Some rest.now) }
{
    match text {
        [b'r', b'o', b'w', b' ', rest @ ..] => Some(rest),
        _ => None,
    }
}

/// The word after a space, and the rest.
#[tactic(auto, unfolding(crate::specs::LineReading::word_at))]
pub fn next_word(text: &[u8]) -> Option<(&[u8], &[u8])>
    ensures { MatchOption result (Reading.word_at text.now ≡ None)
        (λ x. Reading.word_at text.now ≡ Some (x.0.now, x.1.now)) }
{
    let rest = after(b" ", text)?;
    Some(to_space(rest))
}

// What stands before the first space, and the rest with it.
#[tactic(auto, using(crate::proofs::WordLemmas::space_rules))]
fn to_space(text: &[u8]) -> (&[u8], &[u8])
    ensures { Reading.before_space text.now ≡ (result.0.now, result.1.now) }
{
    for (at, byte) in text.iter().enumerate() {
        if *byte == b' ' {
            return (&text[..at], &text[at..]);
        }
    }
    (text, &text[text.len()..])
}

/// The number of 32 bits that follows the name and a space, and is all that follows.
#[tactic(auto, unfolding(crate::specs::LineReading::number_spelled))]
pub fn number_after(name: &[u8], line: &[u8]) -> Option<u32>
    ensures { result ≡ Reading.number_spelled name.now line.now }
{
    let spaced = after(name, line)?;
    let word = after(b" ", spaced)?;
    Some(number_of(word, 4_294_967_295)? as u32)
}

/// A bound, or the mark that there is none.
#[tactic(auto, unfolding(crate::specs::LineReading::bound_in))]
pub fn bound_of(word: &[u8]) -> Option<Option<u64>>
    ensures { result ≡ Reading.bound_in word.now }
{
    if word == b"-".as_slice() {
        return Some(None);
    }
    Some(Some(number_of(word, u64::MAX)?))
}

#[tactic(auto, unfolding(crate::specs::LineReading::role_in))]
fn role_of(word: &[u8]) -> Option<Role>
    ensures { result ≡ Reading.role_in word.now }
{
    let number = number_of(word, 3)?;
    Some(match number {
        0 => Role::Alone,
        1 => Role::Opens,
        2 => Role::GoesOn,
        _ => Role::Closes,
    })
}

// So many flights, and the rest.
#[tactic(auto, using(crate::proofs::WordLemmas::flight_rules))]
fn flights_of(
    text: &[u8],
    count: usize,
) -> Option<(ArrayVec<u32, MOST_FLIGHTS_OF_A_COMPONENT>, &[u8])>
    requires { count ≤ MOST_FLIGHTS_OF_A_COMPONENT }
    ensures { MatchOption result (Reading.flights_in count text.now ≡ None)
        (λ x. Reading.flights_in count text.now ≡ Some (x.0, x.1.now)) }
{
    let mut flights = ArrayVec::new();
    let mut rest = text;
    while flights.as_slice().len() < count {
        let (word, more) = next_word(rest)?;
        flights.push(number_of(word, 4_294_967_295)? as u32);
        rest = more;
    }
    Some((flights, rest))
}

// The count of a move's flights, from 1 to `MOST_FLIGHTS_OF_A_COMPONENT`.
fn count_of(word: &[u8]) -> Option<usize>
    ensures value { result ≡ Reading.count_in word.now }
    ensures few { IfSome result (λ n. n ≤ MOST_FLIGHTS_OF_A_COMPONENT) }
{
    let count = number_of(word, MOST_FLIGHTS_OF_A_COMPONENT as u64)?;
    if count == 0 {
        None
    } else {
        Some(count as usize)
    }
}

/// A move, and the rest.
#[tactic(auto, unfolding(crate::specs::LineReading::move_in))]
fn move_of(text: &[u8]) -> Option<(Move, &[u8])>
    ensures { MatchOption result (Reading.move_in text.now ≡ None)
        (λ x. Reading.move_in text.now ≡ Some (x.0, x.1.now)) }
{
    let (count, text) = next_word(text)?;
    let (flights, text) = flights_of(text, count_of(count)?)?;
    let (carrier, text) = next_word(text)?;
    let (basis, text) = next_word(text)?;
    let (role, text) = next_word(text)?;
    let (slot, text) = next_word(text)?;
    let mv = Move {
        flights,
        carrier: carrier_of(carrier)?,
        basis: basis_of(basis)?,
        role: role_of(role)?,
        slot: number_of(slot, 255)? as u8,
    };
    Some((mv, text))
}

/// The moves that the rest of a line spells: at most `MOST_COMPONENTS`.
#[tactic(auto, using(crate::proofs::WordLemmas::move_rules))]
pub fn moves_of(text: &[u8]) -> Option<ArrayVec<Move, MOST_COMPONENTS>>
    ensures { result ≡ Reading.moves_in MOST_COMPONENTS text.now }
{
    let mut moves = ArrayVec::new();
    let mut rest = text;
    while moves.as_slice().len() < MOST_COMPONENTS {
        if rest.is_empty() {
            return Some(moves);
        }
        let (mv, more) = move_of(rest)?;
        moves.push(mv);
        rest = more;
    }
    if rest.is_empty() { Some(moves) } else { None }
}
