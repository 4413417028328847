//! The words of a residual's text, one field each.
ghost use Rattle.std.specs.Prelude.{◌≡◌, ◌<◌, ◌^◌, option_map, pos};
ghost use Rattle.std.specs.Fmt.{signed_decimal};
ghost use Rattle.residual_keys.specs.ResidualReading as Reading;
ghost use Rattle.residual_keys.specs.ResidualText as Text;
ghost use Rattle.word_text.specs.Words.{number_in};

use fare_law::Place;
use itoa::Buffer;
use name_text::{carrier_of, place_of};
use open_unit::{CarrierMark, RuleMark};
use word_text::{number_of, numbers_tell};

pub fn via_word(via: &Option<Place>) -> &[u8]
    ensures { result.now ≡ Text.via_word via.now }
{
    match via {
        None => b"-",
        Some(place) => &place.0,
    }
}

pub fn day_word(day: Option<i32>, buffer: &mut Buffer) -> &[u8]
    ensures { result.now ≡ Text.day_word day }
{
    match day {
        None => b"-",
        Some(day) => buffer.format(day).as_bytes(),
    }
}

pub fn carriers_word(carriers: &CarrierMark) -> &[u8]
    ensures { result.now ≡ Text.carriers_word carriers.now }
{
    match carriers {
        CarrierMark::NotYet => b"-",
        CarrierMark::One(carrier) => &carrier.0,
        CarrierMark::Mixed => b"*",
    }
}

pub fn rules_word(rules: RuleMark, buffer: &mut Buffer) -> &[u8]
    ensures { result.now ≡ Text.rules_word rules }
{
    match rules {
        RuleMark::One(rule) => buffer.format(rule).as_bytes(),
        RuleMark::Mixed => b"*",
    }
}

/// A number of one byte.
pub fn byte_of(word: &[u8]) -> Option<u8>
    ensures { result ≡ number_in 255 word.now }
{
    numbers_tell();
    match word {
        [digit] if digit.is_ascii_digit() => Some(*digit - b'0'),
        _ => Some(number_of(word, 255)? as u8),
    }
}

/// A number of 32 bits.
pub fn place_number_of(word: &[u8]) -> Option<u32>
    ensures { result ≡ number_in 4294967295 word.now }
{
    Some(number_of(word, 4_294_967_295)? as u32)
}

/// The place called at first, or the mark that there is none.
#[tactic(auto, unfolding(crate::specs::ResidualReading::via_in))]
pub fn via_of(word: &[u8]) -> Option<Option<Place>>
    ensures { result ≡ Reading.via_in word.now }
{
    if word == b"-".as_slice() {
        return Some(None);
    }
    Some(Some(place_of(word)?))
}

/// A day.
#[tactic(auto, unfolding(crate::specs::ResidualReading::day_in))]
pub fn day_of(word: &[u8]) -> Option<i32>
    ensures { result ≡ Reading.day_in word.now }
{
    Some(number_of(word, 2_147_483_647)? as i32)
}

/// A day that a rule sets, or the mark that none does.
#[tactic(auto, unfolding(crate::specs::ResidualReading::set_day_in))]
pub fn set_day_of(word: &[u8]) -> Option<Option<i32>>
    ensures { result ≡ Reading.set_day_in word.now }
{
    if word == b"-".as_slice() {
        return Some(None);
    }
    Some(Some(day_of(word)?))
}

/// What the carriers of the fares are.
#[tactic(auto, unfolding(crate::specs::ResidualReading::carriers_in))]
pub fn carriers_of(word: &[u8]) -> Option<CarrierMark>
    ensures { result ≡ Reading.carriers_in word.now }
{
    if word == b"-".as_slice() {
        return Some(CarrierMark::NotYet);
    }
    if word == b"*".as_slice() {
        return Some(CarrierMark::Mixed);
    }
    Some(CarrierMark::One(carrier_of(word)?))
}

/// What the rules of the fares are.
#[tactic(auto, unfolding(crate::specs::ResidualReading::rules_in))]
pub fn rules_of(word: &[u8]) -> Option<RuleMark>
    ensures { result ≡ Reading.rules_in word.now }
{
    if word == b"*".as_slice() {
        return Some(RuleMark::Mixed);
    }
    Some(RuleMark::One(number_of(word, 65_535)? as u16))
}
