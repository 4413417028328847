//! The lines of a certificate's text, written.
ghost use Rattle.std.specs.Prelude.{◌≡◌, ◌++◌, ◌∷◌, [], map, flat_map, decimal, OnOk};
ghost use Rattle.certificate_text.specs.CertText.{text_of};
ghost use Rattle.certificate_text.specs.Lines as Lines;
ghost use Rattle.certificate_text.specs.Lines.{answer_line, move_words, number_line, row_line, spaced};

use certificate::CertAnswer;
use fare_law::{Mem, Move};
use itoa::Buffer;
use word_text::push_word;

/// Adds a line of a name and a number.
pub fn push_number_line(text: &mut Vec<u8>, name: &[u8], number: u64) -> Result<(), Mem>
    ensures { OnOk result (text.new.items
        ≡ text.old.items ++ (number_line name.now number ++ 10 ∷ [])) }
{
    text.extend_from_slice(name)?;
    push_number(text, number)?;
    text.push(b'\n')?;
    Ok(())
}

/// Adds a line of an answer.
pub fn push_answer(text: &mut Vec<u8>, answer: &CertAnswer) -> Result<(), Mem>
    ensures { OnOk result (text.new.items
        ≡ text.old.items ++ (answer_line answer.now ++ 10 ∷ [])) }
{
    text.extend_from_slice(b"answer")?;
    push_number(text, answer.price)?;
    push_moves(text, answer.moves.as_slice())?;
    text.push(b'\n')?;
    Ok(())
}

fn push_moves(text: &mut Vec<u8>, moves: &[Move]) -> Result<(), Mem>
    ensures { OnOk result (text.new.items
        ≡ text.old.items ++ spaced (flat_map move_words moves.now)) }
{
    for mv in moves {
        push_move(text, mv)?;
    }
    Ok(())
}

fn push_move(text: &mut Vec<u8>, mv: &Move) -> Result<(), Mem>
    ensures { OnOk result (text.new.items ≡ text.old.items ++ spaced (move_words mv.now)) }
{
    push_number(text, mv.flights.as_slice().len() as u64)?;
    push_flights(text, mv.flights.as_slice())?;
    push_word(text, b' ', &mv.carrier.0)?;
    push_word(text, b' ', mv.basis.0.as_slice())?;
    push_number(text, mv.role as u64)?;
    push_number(text, mv.slot.into())
}

fn push_flights(text: &mut Vec<u8>, flights: &[u32]) -> Result<(), Mem>
    ensures { OnOk result (text.new.items
        ≡ text.old.items ++ spaced (map decimal flights.now)) }
{
    for flight in flights {
        push_number(text, (*flight).into())?;
    }
    Ok(())
}

// Adds a number after a space.
fn push_number(text: &mut Vec<u8>, number: u64) -> Result<(), Mem>
    ensures { OnOk result (text.new.items ≡ text.old.items ++ 32 ∷ decimal number) }
{
    push_word(text, b' ', Buffer::new().format(number).as_bytes())
}
