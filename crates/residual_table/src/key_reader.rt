//! Residuals read one after another, straight to their keys. In order they mostly have the position of the one before
//! and open units that came before, so the texts of these are kept with their numbers.
ghost use Rattle.std.specs.Prelude.{◌≡◌, ◌++◌, ◌∷◌, ℕ, List, [], IfOk, IfSome, MatchOption, None, Some, bytes_eq, codes, false, slice_get};
ghost use Rattle.std.specs.List.{join_with_byte};
ghost use Rattle.open_unit.specs.Ranges.{UnitInRanges};
ghost use Rattle.residual_keys.specs.ResidualReading.{position_in};
ghost use Rattle.residual_keys.specs.ResidualText.{Spells, position_words};
ghost use Rattle.residual_keys.specs.Residuals.{State};
ghost use Rattle.residual_table.specs.KeyReading.{HasPosition, HasSlots, HasUnit, IsKnownUnit, NoUnit, NoUnits};
ghost use Rattle.residual_table.specs.Keys.{Grows, IsSlot, StandsFor, no_tables};
ghost use Rattle.word_text.specs.Words.{cut_at};

use crate::key::ResidualKey;
use crate::known::{KnownPosition, KnownUnit, position_text};
use crate::parts::ResidualParts;
use crate::spots::{SPOTS, text_spot};
use crate::ticket_reader::TicketReader;
use fare_law::Mem;
use flight_paths::Position;
use open_unit::OpenUnit;
use residual_keys::{position_of, unit_kept, unit_of};
use std::alloc::Global;
use std::marker::Model;
use word_text::{cut, cuts_tell, numbers_tell};

/// Reads residuals by the numbers of their parts, and gives a number to what has none. Contracts see the parts.
#[derive(Drop)]
pub struct KeyReader {
    alloc: Global,
    parts: ResidualParts,
    /// The last position.
    position: Option<KnownPosition>,
    /// The open units that had a spot last.
    units: Vec<KnownUnit>,
    /// At each spot the place of its open unit, or none that there is.
    places: Vec<u32>,
    /// The spot of the last one that was the first of two: the next one is mostly the same.
    first: usize,
    tickets: TicketReader,
}

impl Model for KeyReader {
    ghost use Rattle.std.specs.Prelude.{IfSome};
    ghost use Rattle.fare_law.specs.Lists.{Each};
    ghost use Rattle.residual_table.specs.KeyReading.{IsKnownPosition, IsKnownUnit};
    ghost use Rattle.residual_table.specs.Keys.{Tables};

    ghost Value = { Tables };

    ghost view = { λ r. r.parts };

    ghost invariant = { λ r. IfSome r.position (IsKnownPosition r.parts) × Each (IsKnownUnit r.parts) r.units.items };
}

impl KeyReader {
    /// A reader that knows nothing yet.
    pub fn new(alloc: Global) -> Result<KeyReader, Mem>
        ensures { IfOk result (λ reader. reader ≡ no_tables) }
    {
        let places = Vec::from_elem(alloc, u32::MAX, SPOTS)?;
        Ok(KeyReader {
            alloc,
            parts: ResidualParts::new(alloc),
            position: None,
            units: Vec::new(alloc),
            places,
            first: 0,
            tickets: TicketReader::new(alloc),
        })
    }

    /// The parts of what was read.
    pub fn into_parts(self) -> ResidualParts
        ensures { result ≡ self }
    {
        self.parts
    }

    /// The key of the residual whose text the bytes are. None exactly where they are the text of no residual, as by
    /// `residual_keys::read_residual`. `Mem` is want of memory for a number, or of a number.
    pub fn read(&mut self, bytes: &[u8]) -> Result<Option<ResidualKey>, Mem>
        ensures key { IfOk result (λ o. MatchOption o ((x : State) → Spells bytes.now x → ⊥)
            (λ k. (x : State) × Spells bytes.now x × StandsFor self.new k x)) }
        ensures grows { Grows self.old self.new }
    {
        cuts_tell();
        numbers_tell();
        let Some((position, rest)) = self.position_of(bytes)? else {
            return Ok(None);
        };
        let Some((units, part)) = self.tickets.read(rest) else {
            return Ok(None);
        };
        let Some((first, second)) = self.slots_of(units)? else {
            return Ok(None);
        };
        self.parts.keeps();
        Ok(Some(ResidualKey {
            position,
            first,
            second,
            part,
        }))
    }

    // The number of a position, and what follows it after a space.
    fn position_of<'a>(&mut self, text: &'a [u8]) -> Result<Option<(u32, &'a [u8])>, Mem>
        ensures position { IfOk result (λ o. MatchOption o (position_in text.now ≡ None)
            (λ x. HasPosition self.new text.now x.0 x.1.now)) }
        ensures grows { Grows self.old self.new }
    {
        if let Some(known) = &self.position {
            if let Some(rest) = text.strip_prefix(known.text.as_slice()) {
                return Ok(Some((known.number, rest)));
            }
        }
        cuts_tell();
        numbers_tell();
        let Some((at, rest)) = position_of(text) else {
            return Ok(None);
        };
        let number = self.add_position(&at)?;
        Ok(Some((number, rest)))
    }

    // The slots of no open unit, of one, or of two.
    fn slots_of(&mut self, text: &[u8]) -> Result<Option<(u32, u32)>, Mem>
        ensures units { IfOk result (λ o. MatchOption o (NoUnits text.now) (λ x. HasSlots self.new text.now x.0 x.1)) }
        ensures grows { Grows self.old self.new }
    {
        if text == b"-".as_slice() {
            return Ok(Some((0, 0)));
        }
        if let Some((first, other)) = self.known_first(text) {
            let Some(second) = self.slot_of(other)? else {
                return Ok(None);
            };
            return Ok(Some((first, second)));
        }
        let spot = text_spot(text);
        if let Some(slot) = self.known_slot(spot, text) {
            return Ok(Some((slot, 0)));
        }
        self.new_slots(spot, text)
    }

    // The same of open units that aren't known together.
    fn new_slots(&mut self, spot: usize, text: &[u8]) -> Result<Option<(u32, u32)>, Mem>
        requires { bytes_eq text.now (codes "-") ≡ false }
        ensures units { IfOk result (λ o. MatchOption o (NoUnits text.now) (λ x. HasSlots self.new text.now x.0 x.1)) }
        ensures grows { Grows self.old self.new }
    {
        let Some((one, other)) = cut(text, b'/') else {
            let Some(slot) = self.new_slot(spot, text)? else {
                return Ok(None);
            };
            return Ok(Some((slot, 0)));
        };
        self.first = text_spot(one);
        let Some(first) = self.slot_of(one)? else {
            return Ok(None);
        };
        let Some(second) = self.slot_of(other)? else {
            return Ok(None);
        };
        Ok(Some((first, second)))
    }

    // The slot of the first of two open units where it is known, and the text of the other one after a slash.
    fn known_first<'a>(&self, text: &'a [u8]) -> Option<(u32, &'a [u8])>
        ensures { IfSome result (λ x. (word : List ℕ) × (cut_at 47 text.now ≡ Some (word, x.1.now)) × HasUnit self.now word x.0) }
    {
        cuts_tell();
        let known = self.unit_at(self.first)?;
        let other = after_slash(text, known.text.as_slice())?;
        Some((known.slot, other))
    }

    // The slot of an open unit.
    fn slot_of(&mut self, text: &[u8]) -> Result<Option<u32>, Mem>
        ensures unit { IfOk result (λ o. MatchOption o (NoUnit text.now) (HasUnit self.new text.now)) }
        ensures grows { Grows self.old self.new }
    {
        let spot = text_spot(text);
        if let Some(slot) = self.known_slot(spot, text) {
            return Ok(Some(slot));
        }
        self.new_slot(spot, text)
    }

    // The slot of an open unit that is known at its spot.
    fn known_slot(&self, spot: usize, text: &[u8]) -> Option<u32>
        ensures { IfSome result (λ slot. HasUnit self.now text.now slot × (cut_at 47 text.now ≡ None)) }
    {
        let known = self.unit_at(spot)?;
        if known.text.as_slice() != text {
            return None;
        }
        Some(known.slot)
    }

    // The slot of an open unit that isn't.
    fn new_slot(&mut self, spot: usize, text: &[u8]) -> Result<Option<u32>, Mem>
        ensures unit { IfOk result (λ o. MatchOption o (NoUnit text.now) (HasUnit self.new text.now)) }
        ensures grows { Grows self.old self.new }
    {
        let Some(unit) = unit_of(text) else {
            return Ok(None);
        };
        if !unit_kept(&unit) {
            return Ok(None);
        }
        let slot = self.add_unit(&unit)?;
        self.keep_unit(spot, text, slot);
        Ok(Some(slot))
    }

    // The open unit that had a spot last.
    fn unit_at(&self, spot: usize) -> Option<&KnownUnit>
        ensures { IfSome result (λ known. IsKnownUnit self.now known.now) }
    {
        let place = *self.places.get(spot)?;
        self.units.get(place as usize)
    }

    // The number of a position that was read. It is kept, where there is memory.
    fn add_position(&mut self, at: &Position) -> Result<u32, Mem>
        requires { (rest : List ℕ) → position_in ((join_with_byte 32 (position_words at.now) ++ 32 ∷ []) ++ rest) ≡ Some (at.now, rest) }
        ensures number { IfOk result (λ n. slice_get self.new.positions n ≡ Some at.now) }
        ensures grows { Grows self.old self.new }
    {
        let number = self.parts.position(*at)?;
        if let Ok(text) = position_text(self.alloc, at) {
            self.position = Some(KnownPosition { text, number });
        }
        Ok(number)
    }

    // The slot of an open unit.
    fn add_unit(&mut self, unit: &OpenUnit) -> Result<u32, Mem>
        requires { UnitInRanges unit.now }
        ensures slot { IfOk result (λ n. IsSlot self.new.units n (Some unit.now)) }
        ensures grows { Grows self.old self.new }
    {
        self.parts.unit_slot(&Some(*unit))
    }

    // Keeps an open unit that was read at a spot, where there is memory.
    fn keep_unit(&mut self, spot: usize, text: &[u8], slot: u32)
        requires { HasUnit self.old text.now slot }
        ensures { self.new ≡ self.old }
    {
        if cut(text, b'/').is_some() {
            return;
        }
        let Ok(text) = Vec::from_slice(self.alloc, text) else {
            return;
        };
        self.put_unit(spot, KnownUnit { text, slot });
    }

    // Puts an open unit at a spot, where there is memory, in the place of the one that had it.
    fn put_unit(&mut self, spot: usize, unit: KnownUnit)
        requires { IsKnownUnit self.old unit }
        ensures { self.new ≡ self.old }
    {
        let Some(place) = self.places.get_mut(spot) else {
            return;
        };
        if let Some(known) = self.units.get_mut(*place as usize) {
            *known = unit;
            return;
        }
        let next = self.units.len();
        if self.units.push(unit).is_ok() {
            *place = u32::try_from(next).unwrap_or(u32::MAX);
        }
    }
}

// What stands after a word and a slash, where the text begins with them.
fn after_slash<'a>(text: &'a [u8], word: &[u8]) -> Option<&'a [u8]>
    ensures { IfSome result (λ other. text.now ≡ word.now ++ 47 ∷ other.now) }
{
    // the cheaper test first
    if text.get(word.len()) != Some(&b'/') {
        return None;
    }
    let [slash, other @ ..] = text.strip_prefix(word)? else {
        return None;
    };
    if *slash != b'/' {
        return None;
    }
    Some(other)
}
