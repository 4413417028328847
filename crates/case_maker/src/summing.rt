//! The line of a summary.
ghost use Rattle.std.specs.Prelude.{◌≡◌, ◌++◌, codes, decimal, OnOk};
ghost use Rattle.case_maker.specs.SummaryLine.{price_word, summary_line};

use crate::Summary;
use fare_law::Mem;
use itoa::Buffer;

/// Adds the line at the end of a text: `seed a size s flights f residuals r tickets t cheapest p checked yes` and LF,
/// with `-` for the price where no ticket was found. It says that the certificate of the search was checked, so it is
/// for a search whose certificate was.
pub fn push_summary(text: &mut Vec<u8>, summary: &Summary) -> Result<(), Mem>
    ensures { OnOk result (text.new.items ≡ text.old.items ++ summary_line summary.now) }
{
    push_named(text, b"seed ", summary.seed.into())?;
    push_named(text, b" size ", summary.size.into())?;
    push_named(text, b" flights ", summary.flights as u64)?;
    push_named(text, b" residuals ", summary.residuals as u64)?;
    push_named(text, b" tickets ", summary.tickets as u64)?;
    push_price(text, summary.cheapest)?;
    text.extend_from_slice(b" checked yes\n")?;
    Ok(())
}

// Adds a name and a number.
fn push_named(text: &mut Vec<u8>, name: &[u8], number: u64) -> Result<(), Mem>
    ensures { OnOk result (text.new.items ≡ text.old.items ++ (name.now ++ decimal number)) }
{
    text.extend_from_slice(name)?;
    text.extend_from_slice(Buffer::new().format(number).as_bytes())?;
    Ok(())
}

// Adds the price, or a dash where there is none.
fn push_price(text: &mut Vec<u8>, price: Option<u64>) -> Result<(), Mem>
    ensures { OnOk result (text.new.items ≡ text.old.items ++ (codes " cheapest " ++ price_word price)) }
{
    match price {
        Some(price) => push_named(text, b" cheapest ", price),
        None => Ok(text.extend_from_slice(b" cheapest -")?),
    }
}
