//! Reading a certificate line by line.
ghost use Rattle.std.specs.Prelude.{◌≡◌, ◌↔◌, ◌∷◌, ◌<◌, ◌^◌, ℕ, [], List, MatchOption, IfOk, IfErr, IsTrue, codes};
ghost use Rattle.certificate.specs.NumberedRows.{key_of, row_of};
ghost use Rattle.certificate_text.specs.Faults.{Due, FaultFrom, Passed, PassedEnd, PassedRequest, answers_due, rows_due};
ghost use Rattle.certificate_text.specs.Lines.{IsAnswer, IsRow};
ghost use Rattle.certificate_text.specs.Lines as Spelled;
ghost use Rattle.certificate_text.specs.Unread.{HasRoom, IsOver, Takes, Unread, place as place_of, unread};
ghost use Rattle.residual_table.specs.Keys.{Grows, IsLive};

use crate::CertFault;
use crate::request::request_line;
use crate::spelled::{answer_line, is_row, number_line, row_line};
use crate::unread::Lines;
use certificate::{CertAnswer, NumberedRow};
use fare_law::Request;
use residual_table::KeyReader;
use std::alloc::Global;
use word_text::{cut, cuts_tell};

impl<'a> Lines<'a> {
    /// The first line, and what is left after it.
    pub fn next(self) -> Option<(&'a [u8], Lines<'a>)>
        requires { HasRoom (unread self) }
        ensures { MatchOption result ((line : List ℕ) (left : Unread) → Takes (unread self.entry) line left → ⊥)
            (λ x. Takes (unread self.entry) x.0.now (unread x.1)) }
    {
        cuts_tell();
        match self {
            Lines::Text { text, number } => {
                let (line, text) = cut(text, b'\n')?;
                let number = number + 1;
                Some((line, Lines::Text { text, number }))
            }
            Lines::Numbered { lines, end } => {
                let [first, lines @ ..] = lines else {
                    return None;
                };
                Some((first.bytes(), Lines::Numbered { lines, end }))
            }
        }
    }

    /// Whether nothing is left.
    pub fn is_over(self) -> bool
        ensures { IsTrue result ↔ IsOver (unread self.entry) }
    {
        match self {
            Lines::Text { text, .. } => text.is_empty(),
            Lines::Numbered { lines, .. } => lines.is_empty(),
        }
    }

    /// The number of the first line, or of the line that is missing.
    pub fn place(self) -> u32
        ensures { result ≡ place_of (unread self.entry) }
    {
        match self {
            Lines::Text { number, .. } => number,
            Lines::Numbered { lines, end } => match lines {
                [first, ..] => first.line(),
                [] => end,
            },
        }
    }

    pub fn syntax(self) -> CertFault
        ensures { result ≡ CertFault.Syntax (place_of (unread self.entry)) }
    {
        CertFault::Syntax { line: self.place() }
    }

    pub fn count(self) -> CertFault
        ensures { result ≡ CertFault.Count (place_of (unread self.entry)) }
    {
        CertFault::Count { line: self.place() }
    }

    /// After the line `certificate 1`.
    pub fn head(self) -> Result<Lines<'a>, CertFault>
        requires { HasRoom (unread self) }
        ensures ok { IfOk result (λ next. Passed Due.Head (unread self.entry)
            (codes "certificate 1" ∷ []) Due.Version (unread next)) }
        ensures fault { IfErr result (FaultFrom Due.Head (unread self.entry)) }
    {
        let Some((line, next)) = self.next() else {
            return Err(self.syntax());
        };
        if line != b"certificate 1".as_slice() {
            return Err(self.syntax());
        }
        Ok(next)
    }

    /// The number of the version, and what is left after its line.
    pub fn version(self) -> Result<(u32, Lines<'a>), CertFault>
        requires { HasRoom (unread self) }
        ensures ok { IfOk result (λ x. Passed Due.Version (unread self.entry)
            (Spelled.number_line (codes "version") x.0 ∷ []) (Due.Asked) (unread x.1)) }
        ensures fits { IfOk result (λ x. x.0 < 2 ^ 32) }
        ensures fault { IfErr result (FaultFrom Due.Version (unread self.entry)) }
    {
        let Some((line, next)) = self.next() else {
            return Err(self.syntax());
        };
        let Some(number) = number_line(b"version", line) else {
            return Err(self.syntax());
        };
        Ok((number, next))
    }

    /// The request, and what is left after its line.
    pub fn request(self, alloc: Global) -> Result<(Request, Lines<'a>), CertFault>
        requires { HasRoom (unread self) }
        ensures ok { IfOk result (λ x. PassedRequest (unread self.entry) x.0
            (unread x.1)) }
        ensures fault { IfErr result (FaultFrom Due.Asked (unread self.entry)) }
    {
        let Some((line, next)) = self.next() else {
            return Err(self.syntax());
        };
        let Some(request) = request_line(alloc, line)? else {
            return Err(self.syntax());
        };
        Ok((request, next))
    }

    /// How many answers there are, and what is left after its line.
    pub fn answer_count(self) -> Result<(u32, Lines<'a>), CertFault>
        requires { HasRoom (unread self) }
        ensures ok { IfOk result (λ x. Passed Due.AnswerCount (unread self.entry)
            (Spelled.number_line (codes "answers") x.0 ∷ []) (answers_due x.0) (unread x.1)) }
        ensures fits { IfOk result (λ x. x.0 < 2 ^ 32) }
        ensures fault { IfErr result (FaultFrom Due.AnswerCount (unread self.entry)) }
    {
        let Some((line, next)) = self.next() else {
            return Err(self.syntax());
        };
        let Some(number) = number_line(b"answers", line) else {
            return Err(self.syntax());
        };
        Ok((number, next))
    }

    /// An answer, and what is left after its line.
    pub fn answer(self) -> Result<(CertAnswer, Lines<'a>), CertFault>
        requires { HasRoom (unread self) }
        ensures ok { IfOk result (λ x. (more : ℕ) → Passed (Due.Answer more) (unread self.entry)
            (Spelled.answer_line x.0 ∷ []) (answers_due more) (unread x.1)) }
        ensures fits { IfOk result (λ x. IsAnswer x.0) }
        ensures fault { IfErr result (λ f. (more : ℕ)
            → FaultFrom (Due.Answer more) (unread self.entry) f) }
    {
        let Some((line, next)) = self.next() else {
            if self.is_over() {
                return Err(self.count());
            }
            return Err(self.syntax());
        };
        let Some(found) = answer_line(line) else {
            if number_line(b"rows", line).is_some() {
                return Err(self.count());
            }
            return Err(self.syntax());
        };
        Ok((found, next))
    }

    /// How many rows there are, and what is left after its line.
    pub fn row_count(self) -> Result<(u32, Lines<'a>), CertFault>
        requires { HasRoom (unread self) }
        ensures ok { IfOk result (λ x. Passed Due.RowCount (unread self.entry)
            (Spelled.number_line (codes "rows") x.0 ∷ []) (rows_due x.0) (unread x.1)) }
        ensures fits { IfOk result (λ x. x.0 < 2 ^ 32) }
        ensures fault { IfErr result (FaultFrom Due.RowCount (unread self.entry)) }
    {
        let Some((line, next)) = self.next() else {
            return Err(self.syntax());
        };
        let Some(number) = number_line(b"rows", line) else {
            if answer_line(line).is_some() {
                return Err(self.count());
            }
            return Err(self.syntax());
        };
        Ok((number, next))
    }

    /// A row by the numbers of its reader, and what is left after its line.
    pub fn row(self, reader: &mut KeyReader) -> Result<(NumberedRow, Lines<'a>), CertFault>
        requires { HasRoom (unread self) }
        ensures ok { IfOk result (λ x. (more : ℕ) → Passed (Due.Row more) (unread self.entry)
            (Spelled.row_line (row_of reader.new x.0) ∷ []) (rows_due more) (unread x.1)) }
        ensures live { IfOk result (λ x. IsLive reader.new (key_of x.0)) }
        ensures fits { IfOk result (λ x. IsRow (row_of reader.new x.0)) }
        ensures grows { Grows reader.old reader.new }
        ensures fault { IfErr result (λ f. (more : ℕ)
            → FaultFrom (Due.Row more) (unread self.entry) f) }
    {
        let Some((line, next)) = self.next() else {
            if self.is_over() {
                return Err(self.count());
            }
            return Err(self.syntax());
        };
        let Some(row) = row_line(reader, line)? else {
            if line == b"end".as_slice() {
                return Err(self.count());
            }
            return Err(self.syntax());
        };
        Ok((row, next))
    }

    /// After the line `end`, which nothing follows.
    pub fn end(self) -> Result<(), CertFault>
        requires { HasRoom (unread self) }
        ensures ok { IfOk result (λ x. PassedEnd (unread self.entry)) }
        ensures fault { IfErr result (FaultFrom Due.End (unread self.entry)) }
    {
        let Some((line, next)) = self.next() else {
            return Err(self.syntax());
        };
        if line != b"end".as_slice() {
            if is_row(line) {
                return Err(self.count());
            }
            return Err(self.syntax());
        }
        if !next.is_over() {
            return Err(next.syntax());
        }
        Ok(())
    }
}
