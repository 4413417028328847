//! The text of a residual.
ghost use Rattle.std.specs.Prelude.{◌≡◌, ◌++◌, ◌∷◌, IfOk, OnOk};
ghost use Rattle.std.specs.List.{join_with_byte};
ghost use Rattle.residual_keys.specs.Kept.{PartKept, open_units};
ghost use Rattle.residual_keys.specs.ResidualText as Text;

use crate::words::{carriers_word, day_word, rules_word, via_word};
use crate::{Residual, TicketPart};
use fare_law::{List, Mem};
use flight_paths::Position;
use itoa::Buffer;
use open_unit::{CarrierMark, OpenUnit};
use std::alloc::Global;
use word_text::push_joined;

/// The text of the residual: `slice leg place via lo hi units ticket`.
pub fn residual_text(alloc: Global, residual: &Residual) -> Result<List<u8>, Mem>
    ensures { IfOk result (λ text. text ≡ Text.residual_text residual.now) }
{
    let mut text = Vec::new(alloc);
    push_residual(&mut text, residual)?;
    Ok(List::from_vec(text))
}

/// Adds the text of the residual.
pub fn push_residual(text: &mut Vec<u8>, residual: &Residual) -> Result<(), Mem>
    ensures { OnOk result (text.new.items ≡ text.old.items ++ Text.residual_text residual.now) }
{
    push_position(text, &residual.at)?;
    text.push(b' ')?;
    push_units(text, &residual.unit1, &residual.unit2)?;
    push_part(text, &residual.part)
}

/// Adds the words of the position.
pub fn push_position(text: &mut Vec<u8>, at: &Position) -> Result<(), Mem>
    ensures { OnOk result (text.new.items
        ≡ text.old.items ++ join_with_byte 32 (Text.position_words at.now)) }
{
    let (mut slices, mut legs) = (Buffer::new(), Buffer::new());
    let (mut lows, mut highs) = (Buffer::new(), Buffer::new());
    let words: [&[u8]; 6] = [
        slices.format(at.slice).as_bytes(),
        legs.format(at.leg).as_bytes(),
        &at.place.0,
        via_word(&at.via),
        lows.format(at.lo).as_bytes(),
        highs.format(at.hi).as_bytes(),
    ];
    push_joined(text, b' ', &words)
}

fn push_units(
    text: &mut Vec<u8>,
    first: &Option<OpenUnit>,
    second: &Option<OpenUnit>,
) -> Result<(), Mem>
    ensures { OnOk result (text.new.items
        ≡ text.old.items ++ Text.units_text (open_units first.now second.now)) }
{
    let Some(first) = first else {
        text.push(b'-')?;
        return Ok(());
    };
    push_unit(text, first)?;
    let Some(second) = second else {
        return Ok(());
    };
    text.push(b'/')?;
    push_unit(text, second)
}

/// Adds the text of the open unit.
pub fn push_unit(text: &mut Vec<u8>, unit: &OpenUnit) -> Result<(), Mem>
    ensures { OnOk result (text.new.items ≡ text.old.items ++ Text.unit_text unit.now) }
{
    text.extend_from_slice(&unit.origin.0)?;
    text.push(b'>')?;
    let (mut counts, mut firsts, mut kinds) = (Buffer::new(), Buffer::new(), Buffer::new());
    let (mut leasts, mut greatests, mut bys) = (Buffer::new(), Buffer::new(), Buffer::new());
    let (mut partners, mut rules) = (Buffer::new(), Buffer::new());
    let words: [&[u8]; 10] = [
        &unit.end.0,
        counts.format(unit.count).as_bytes(),
        firsts.format(unit.first_day).as_bytes(),
        day_word(unit.least, &mut leasts),
        day_word(unit.greatest, &mut greatests),
        day_word(unit.by, &mut bys),
        kinds.format(unit.kinds).as_bytes(),
        partners.format(unit.partner).as_bytes(),
        carriers_word(&unit.carrier),
        rules_word(unit.rule, &mut rules),
    ];
    push_joined(text, b':', &words)
}

/// Adds the text of the ticket part after a space. Its numbers are digits.
pub fn push_part(text: &mut Vec<u8>, part: &TicketPart) -> Result<(), Mem>
    requires { PartKept part.now }
    ensures { OnOk result (text.new.items ≡ text.old.items ++ 32 ∷ Text.part_text part.now) }
{
    let units = b'0' + part.units;
    let ends = b'0' + part.ends;
    match part.carrier {
        CarrierMark::NotYet => text.extend_from_slice(&[b' ', units, b':', ends, b':', b'-'])?,
        CarrierMark::One(carrier) => {
            let [first, second] = carrier.0;
            text.extend_from_slice(&[b' ', units, b':', ends, b':', first, second])?;
        }
        CarrierMark::Mixed => text.extend_from_slice(&[b' ', units, b':', ends, b':', b'*'])?,
    }
    Ok(())
}
