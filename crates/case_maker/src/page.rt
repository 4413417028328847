//! A growing text, and the numbers that are drawn for it.
ghost use Rattle.std.specs.Prelude.{◌≡◌, ◌≤◌, ◌<◌, ◌++◌, [], map, flat_map, OnOk};
ghost use Rattle.std.specs.List.{join_with_byte};
ghost use Rattle.case_maker.specs.Drawing.{Made, after, drawn_below, going_on, said};
ghost use Rattle.case_maker.specs.Tables.{row};

use fare_law::{List, Mem};
use std::alloc::Global;
use std::marker::Model;
use word_text::push_joined;

/// The text that was made so far, and the last of the numbers that follow one another.
#[derive(Drop)]
pub(crate) struct Page {
    text: Vec<u8>,
    last: u64,
}

impl Model for Page {
    ghost Value = { Made };

    ghost view = { λ p. record { text = p.text.items; last = p.last } };
}

impl Page {
    /// A page without text, on which the numbers follow the seed.
    pub fn new(alloc: Global, seed: u32) -> Page
        ensures { result ≡ said [] seed }
    {
        Page {
            text: Vec::new(alloc),
            last: seed as u64,
        }
    }

    /// Draws from the numbers below this one.
    pub fn draw(&mut self, below: u64) -> u64
        requires { 1 ≤ below }
        ensures drawn { result ≡ drawn_below below (after self.old.last) }
        ensures least { result < below }
        ensures last { self.new.last ≡ after self.old.last }
        ensures text { self.new.text ≡ self.old.text }
    {
        self.last = self
            .last
            .wrapping_mul(6_364_136_223_846_793_005)
            .wrapping_add(1_442_695_040_888_963_407);
        (self.last >> 33) % below
    }

    /// Adds bytes.
    #[tactic(auto, unfolding(crate::specs::Drawing::going_on))]
    pub fn say(&mut self, bytes: &[u8]) -> Result<(), Mem>
        ensures { OnOk result (self.new ≡ going_on self.old (said bytes.now)) }
    {
        self.text.extend_from_slice(bytes)?;
        Ok(())
    }

    /// Adds pieces one after another.
    #[tactic(auto, unfolding(crate::specs::Drawing::going_on))]
    pub fn say_all(&mut self, pieces: &[&[u8]]) -> Result<(), Mem>
        ensures { OnOk result (self.new ≡ going_on self.old (said (flat_map (λ p. p.now) pieces.now))) }
    {
        push_pieces(&mut self.text, pieces)
    }

    /// Adds a line of columns with commas between.
    #[tactic(auto, unfolding(crate::specs::Drawing::going_on))]
    pub fn say_row(&mut self, columns: &[&[u8]]) -> Result<(), Mem>
        ensures { OnOk result (self.new ≡ going_on self.old (row (map (λ c. c.now) columns.now))) }
    {
        push_joined(&mut self.text, b',', columns)?;
        self.text.push(b'\n')?;
        Ok(())
    }

    /// The text.
    pub fn into_text(self) -> List<u8>
        ensures { result ≡ self.text }
    {
        List::from_vec(self.text)
    }
}

fn push_pieces(text: &mut Vec<u8>, pieces: &[&[u8]]) -> Result<(), Mem>
    ensures { OnOk result (text.new.items ≡ text.old.items ++ flat_map (λ p. p.now) pieces.now) }
{
    for piece in pieces {
        text.extend_from_slice(piece)?;
    }
    Ok(())
}
