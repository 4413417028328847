//! Lines of a certificate's text, read.
ghost use Rattle.std.specs.Prelude.{◌≡◌, ◌↔◌, ℕ, IfOk, IsTrue, MatchOption, Some};
ghost use Rattle.certificate.specs.declared.parts.CertAnswer.{CertAnswer as AnswerData};
ghost use Rattle.certificate.specs.declared.parts.CertRow.{CertRow as RowData};
ghost use Rattle.certificate.specs.NumberedRows.{key_of, row_of};
ghost use Rattle.certificate_text.specs.LineReading as Reading;
ghost use Rattle.certificate_text.specs.Lines.{HasWords, SpellsAnswer, SpellsNumber, SpellsRow};
ghost use Rattle.residual_table.specs.Keys.{Grows, IsLive};

use crate::words::{after, after_row, bound_of, moves_of, next_word, number_after};
use certificate::{CertAnswer, NumberedRow};
use fare_law::Mem;
use residual_keys::read_residual;
use residual_table::KeyReader;
use word_text::{cut_last, cuts_tell, number_of, numbers_tell};

/// The number of a line of this name.
pub fn number_line(name: &[u8], line: &[u8]) -> Option<u32>
    ensures { (n : ℕ) → (result ≡ Some n) ↔ SpellsNumber name.now line.now n }
{
    numbers_tell();
    number_after(name, line)
}

/// The answer of a line.
pub fn answer_line(line: &[u8]) -> Option<CertAnswer>
    ensures { (a : AnswerData) → (result ≡ Some a) ↔ SpellsAnswer line.now a }
{
    numbers_tell();
    answer_of(line)
}

/// The row of a line, by the numbers of its reader.
pub fn row_line(reader: &mut KeyReader, line: &[u8]) -> Result<Option<NumberedRow>, Mem>
    ensures row { IfOk result (λ o. MatchOption o ((r : RowData) → SpellsRow line.now r → ⊥)
        (λ n. IsLive reader.new (key_of n) × SpellsRow line.now (row_of reader.new n))) }
    ensures grows { Grows reader.old reader.new }
{
    let Some((residual, bound)) = row_words(line) else {
        return Ok(None);
    };
    let Some(key) = reader.read(residual)? else {
        return Ok(None);
    };
    Ok(Some(NumberedRow::new(&key, bound)))
}

/// Whether a line is that of a row.
pub fn is_row(line: &[u8]) -> bool
    ensures { IsTrue result ↔ ((r : RowData) × SpellsRow line.now r) }
{
    match row_words(line) {
        Some((residual, _)) => read_residual(residual).is_some(),
        None => false,
    }
}

// The text that a row's residual has, and the bound.
fn row_words(line: &[u8]) -> Option<(&[u8], Option<u64>)>
    ensures { MatchOption result ((r : RowData) → SpellsRow line.now r → ⊥) (λ x. HasWords line.now x.0.now x.1) }
{
    numbers_tell();
    cuts_tell();
    let rest = after_row(line)?;
    let (residual, bound) = cut_last(rest, b' ')?;
    let bound = bound_of(bound)?;
    Some((residual, bound))
}

#[tactic(auto, unfolding(crate::specs::LineReading::answer_in))]
fn answer_of(line: &[u8]) -> Option<CertAnswer>
    ensures { result ≡ Reading.answer_in line.now }
{
    let rest = after(b"answer", line)?;
    let (price, rest) = next_word(rest)?;
    let price = number_of(price, u64::MAX)?;
    let moves = moves_of(rest)?;
    Some(CertAnswer { price, moves })
}
