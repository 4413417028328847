//! Lines of rows. Rows are by numbers, so the text of each position and of each open unit is made once, and copied for each
//! row that has its number.
ghost use Rattle.std.specs.Prelude.{◌≡◌, ◌++◌, ◌∷◌, [], List as Items, map, Some, IfOk, OnOk};
ghost use Rattle.certificate.specs.NumberedRows.{AreLive, key_of, row_of, rows_of};
ghost use Rattle.certificate_text.specs.CertText.{text_of};
ghost use Rattle.certificate_text.specs.Lines as Lines;
ghost use Rattle.certificate_text.specs.Lines.{row_line};
ghost use Rattle.certificate_text.specs.RowTexts as Texts;
ghost use Rattle.open_unit.specs.declared.units.OpenUnit.{OpenUnit as Unit};
ghost use Rattle.residual_keys.specs.ResidualText as Text;
ghost use Rattle.residual_table.specs.Keys.{IsLive, Tables, units_of};

use certificate::NumberedRow;
use fare_law::{List, Mem};
use flight_paths::Position;
use itoa::Buffer;
use open_unit::OpenUnit;
use residual_keys::{push_part, push_position, push_unit};
use residual_table::ResidualParts;
use std::alloc::Global;

/// By number, texts of what residuals consist of.
#[derive(Drop)]
pub struct RowTexts {
    /// Of positions: with what the lines of their rows begin.
    pub beginnings: List<List<u8>>,
    /// Of open units.
    pub units: List<List<u8>>,
}

impl RowTexts {
    /// The texts of all that has a number.
    pub fn of(alloc: Global, parts: &ResidualParts) -> Result<RowTexts, Mem>
        ensures { IfOk result (λ texts. texts ≡ Texts.texts_of parts.now) }
    {
        let beginnings = beginnings(alloc, parts.all_positions())?;
        let units = unit_texts(alloc, parts.all_units())?;
        Ok(RowTexts { beginnings, units })
    }
}

fn beginnings(alloc: Global, positions: &[Position]) -> Result<List<List<u8>>, Mem>
    ensures { IfOk result (λ texts. texts ≡ map Texts.beginning positions.now) }
{
    let mut texts = List::new(alloc);
    for at in positions {
        let text = beginning(alloc, at)?;
        texts.push(text)?;
    }
    Ok(texts)
}

// With what the lines of rows of a position begin.
fn beginning(alloc: Global, at: &Position) -> Result<List<u8>, Mem>
    ensures { IfOk result (λ text. text ≡ Texts.beginning at.now) }
{
    let mut text = Vec::with_capacity(alloc, 40)?;
    text.extend_from_slice(b"row ")?;
    push_position(&mut text, at)?;
    text.push(b' ')?;
    Ok(List::from_vec(text))
}

fn unit_texts(alloc: Global, units: &[OpenUnit]) -> Result<List<List<u8>>, Mem>
    ensures { IfOk result (λ texts. texts ≡ map Text.unit_text units.now) }
{
    let mut texts = List::new(alloc);
    for unit in units {
        let text = unit_text(alloc, unit)?;
        texts.push(text)?;
    }
    Ok(texts)
}

fn unit_text(alloc: Global, unit: &OpenUnit) -> Result<List<u8>, Mem>
    ensures { IfOk result (λ text. text ≡ Text.unit_text unit.now) }
{
    let mut text = Vec::with_capacity(alloc, 64)?;
    push_unit(&mut text, unit)?;
    Ok(List::from_vec(text))
}

/// How many bytes the lines of rows take, with some room for bounds: a text that has it from the start need not move as it
/// grows.
pub fn room_of(texts: &RowTexts, rows: &[NumberedRow]) -> usize {
    let mut room: usize = 0;
    for row in rows {
        room = room.saturating_add(length_of(texts, row));
    }
    room
}

/// How long the line of a row is, at most, where a bound has no more digits than prices have.
fn length_of(texts: &RowTexts, row: &NumberedRow) -> usize {
    const MARKS_AND_BOUND: usize = 24;
    let key = row.key();
    let units = texts.units.as_slice();
    let beginning = length_at(texts.beginnings.as_slice(), key.position as usize);
    let first = length_before(units, key.first);
    let second = length_before(units, key.second);
    beginning
        .saturating_add(first)
        .saturating_add(second)
        .saturating_add(MARKS_AND_BOUND)
}

/// How long the text of this number is, if there is one.
fn length_at(texts: &[List<u8>], number: usize) -> usize {
    match texts.get(number) {
        Some(text) => text.len(),
        None => 0,
    }
}

/// How long the text in a slot is. None stands in slot 0.
fn length_before(texts: &[List<u8>], slot: u32) -> usize {
    match slot.checked_sub(1) {
        Some(number) => length_at(texts, number as usize),
        None => 0,
    }
}

/// Adds the lines of rows.
pub fn push_lines(text: &mut Vec<u8>, texts: &RowTexts, rows: &[NumberedRow]) -> Result<(), Mem>
    requires { (t : Tables) × (texts.now ≡ Texts.texts_of t) × AreLive t rows.now }
    ensures { (t : Tables) → texts.now ≡ Texts.texts_of t → AreLive t rows.now
        → OnOk result (text.new.items ≡ text.old.items ++ text_of (map row_line (rows_of t rows.now))) }
{
    for row in rows {
        push_row(text, texts, row)?;
    }
    Ok(())
}

fn push_row(text: &mut Vec<u8>, texts: &RowTexts, row: &NumberedRow) -> Result<(), Mem>
    requires { (t : Tables) × (texts.now ≡ Texts.texts_of t) × IsLive t (key_of row.now) }
    ensures { (t : Tables) → texts.now ≡ Texts.texts_of t → IsLive t (key_of row.now)
        → OnOk result (text.new.items ≡ text.old.items ++ (row_line (row_of t row.now) ++ 10 ∷ [])) }
{
    let key = row.key();
    text.extend_from_slice(texts.beginnings.as_slice()[key.position as usize].as_slice())?;
    push_units(text, texts.units.as_slice(), key.first, key.second)?;
    push_part(text, &key.part)?;
    push_bound(text, row.bound())
}

// Adds the texts of the open units of two slots.
fn push_units(text: &mut Vec<u8>, units: &[List<u8>], first: u32, second: u32) -> Result<(), Mem>
    requires { (us : Items Unit) × (xs : Items Unit) × (units.now ≡ map Text.unit_text us) × (units_of us first second ≡ Some xs) }
    ensures { (us xs : Items Unit) → units.now ≡ map Text.unit_text us → units_of us first second ≡ Some xs
        → OnOk result (text.new.items ≡ text.old.items ++ Text.units_text xs) }
{
    if first == 0 {
        text.push(b'-')?;
        return Ok(());
    }
    text.extend_from_slice(units[(first - 1) as usize].as_slice())?;
    if second == 0 {
        return Ok(());
    }
    text.push(b'/')?;
    text.extend_from_slice(units[(second - 1) as usize].as_slice())?;
    Ok(())
}

// Adds the bound after a space, or the mark that there is none, and the end of the line.
fn push_bound(text: &mut Vec<u8>, bound: Option<u64>) -> Result<(), Mem>
    ensures { OnOk result (text.new.items ≡ text.old.items ++ 32 ∷ (Lines.bound_word bound ++ 10 ∷ [])) }
{
    match bound {
        Some(bound) => {
            text.push(b' ')?;
            text.extend_from_slice(Buffer::new().format(bound).as_bytes())?;
            text.push(b'\n')?;
        }
        None => text.extend_from_slice(b" -\n")?,
    }
    Ok(())
}
