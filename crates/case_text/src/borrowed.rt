//! A line of a case where it stands in the text.
ghost use Rattle.std.specs.Prelude.{◌≡◌, IfOk};
ghost use Rattle.case_text.specs.Lines.{shown};

use crate::Line;
use fare_law::{List, Mem, TextLine};
use std::alloc::Global;
use std::marker::Model;

/// A line of a case, read where it stands in the text. A contract sees it as a `TextLine`.
#[derive(Drop)]
pub struct CaseLine<'a> {
    place: Line<'a>,
}

impl<'a> Model for CaseLine<'a> {
    ghost use Rattle.case_text.specs.Lines.{shown};
    ghost use Rattle.fare_law.specs.declared.rows.TextLine.{TextLine};

    ghost Value = { TextLine };

    ghost view = { λ l. shown l.place };
}

impl<'a> CaseLine<'a> {
    /// The line that stands there.
    pub(crate) fn of(place: &Line<'a>) -> CaseLine<'a>
        ensures { result ≡ shown place.now }
    {
        CaseLine { place: *place }
    }

    /// Its number, counted from 1.
    pub fn line(&self) -> u32
        ensures { result ≡ self.now.line }
    {
        self.place.line
    }

    /// Its bytes.
    pub fn bytes(&self) -> &'a [u8]
        ensures { result.now ≡ self.now.bytes }
    {
        self.place.bytes
    }

    /// The line with bytes of its own.
    pub fn owned(&self, alloc: Global) -> Result<TextLine, Mem>
        ensures { IfOk result (λ own. own ≡ self.now) }
    {
        let bytes = List::from_vec(self.place.bytes.to_vec(alloc)?);
        Ok(TextLine {
            line: self.place.line,
            bytes,
        })
    }
}
