//! The text of a calendar.
ghost use Rattle.std.specs.Prelude.{◌≡◌, ◌∷◌, ◌++◌, OnOk, Some};
ghost use Rattle.answer_text.specs.Lines.{Adds};
ghost use Rattle.fare_calendar.specs.CalendarText.{CalendarText, CellLine, HasDates, spans_line, value_words};
ghost use Rattle.fare_law.specs.Lists.{Each};
ghost use Rattle.market_time.specs.Dates.{day_spelled};

use crate::{Cell, CellValue, Spans};
use fare_law::Mem;
use itoa::Buffer;
use market_time::day_text;
use word_text::push_word;

/// Adds the text of a calendar at the end of another: `calendar` and its spans, then for each cell `cell`, the date out,
/// the date back and the price, `none` or `too large`. Each line ends with LF.
pub fn push_calendar(text: &mut Vec<u8>, spans: Spans, cells: &[Cell]) -> Result<(), Mem>
    requires { Each HasDates cells.now }
    ensures { OnOk result (Adds (CalendarText spans cells.now) text.old.items text.new.items) }
{
    push_spans(text, spans)?;
    for cell in cells {
        push_cell(text, cell)?;
    }
    Ok(())
}

fn push_spans(text: &mut Vec<u8>, spans: Spans) -> Result<(), Mem>
    ensures { OnOk result (text.new.items ≡ text.old.items ++ spans_line spans) }
{
    text.extend_from_slice(b"calendar ")?;
    text.extend_from_slice(Buffer::new().format(spans.outs).as_bytes())?;
    text.push(b' ')?;
    text.extend_from_slice(Buffer::new().format(spans.backs).as_bytes())?;
    text.push(b'\n')?;
    Ok(())
}

// Adds a cell's line.
fn push_cell(text: &mut Vec<u8>, cell: &Cell) -> Result<(), Mem>
    requires { HasDates cell.now }
    ensures { OnOk result (Adds (CellLine cell.now) text.old.items text.new.items) }
{
    let (out, back) = (date_out(cell), date_back(cell));
    text.extend_from_slice(b"cell")?;
    push_word(text, b' ', &out)?;
    push_word(text, b' ', &back)?;
    push_value(text, cell.value)?;
    text.push(b'\n')?;
    Ok(())
}

fn date_out(cell: &Cell) -> [u8; 10]
    requires { HasDates cell.now }
    ensures { day_spelled result ≡ Some cell.now.out }
{
    day_text(cell.out)
}

fn date_back(cell: &Cell) -> [u8; 10]
    requires { HasDates cell.now }
    ensures { day_spelled result ≡ Some cell.now.back }
{
    day_text(cell.back)
}

// Adds what a cell tells, after a space.
fn push_value(text: &mut Vec<u8>, value: CellValue) -> Result<(), Mem>
    ensures { OnOk result (text.new.items ≡ text.old.items ++ 32 ∷ value_words value) }
{
    match value {
        CellValue::Price(price) => push_word(text, b' ', Buffer::new().format(price).as_bytes()),
        CellValue::NoTicket => push_word(text, b' ', b"none"),
        CellValue::TooLarge => push_word(text, b' ', b"too large"),
    }
}
