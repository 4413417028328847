//! Writing a certificate.
ghost use Rattle.std.specs.Prelude.{◌≡◌, ◌++◌, ◌∷◌, [], length, map, IfOk, OnOk};
ghost use Rattle.certificate_text.specs.CertText.{AddsCertText, CertText, answer_lines, head_lines, row_lines, text_of};
ghost use Rattle.fare_law.specs.Limits.{IsRequest};

use crate::lines::{push_answer, push_number_line};
use crate::row_texts::{RowTexts, push_lines, room_of};
use certificate::{CertAnswer, CertRows, Certificate, RowNumbers};
use fare_law::{List, Mem};
use request_text::request_text;
use std::alloc::Global;

/// The text of the certificate, whose request is within its limits.
pub fn cert_text(alloc: Global, certificate: &Certificate) -> Result<List<u8>, Mem>
    requires { IsRequest certificate.now.request }
    ensures { IfOk result (CertText certificate.now) }
{
    let mut text = Vec::new(alloc);
    push_cert_text(alloc, &mut text, certificate)?;
    Ok(List::from_vec(text))
}

/// Adds that text at the end of another.
pub fn push_cert_text(
    alloc: Global,
    text: &mut Vec<u8>,
    certificate: &Certificate,
) -> Result<(), Mem>
    requires { IsRequest certificate.now.request }
    ensures { OnOk result (AddsCertText certificate.now text.old.items text.new.items) }
{
    let request = request_text(alloc, &certificate.request)?;
    push_head(text, certificate.number, request.as_slice())?;
    push_answers(text, certificate.answers.as_slice())?;
    push_rows(alloc, text, &certificate.rows)?;
    text.extend_from_slice(b"end\n")?;
    Ok(())
}

fn push_head(text: &mut Vec<u8>, number: u32, request: &[u8]) -> Result<(), Mem>
    ensures { OnOk result (text.new.items
        ≡ text.old.items ++ text_of (head_lines number request.now)) }
{
    text.extend_from_slice(b"certificate 1\n")?;
    push_number_line(text, b"version", number.into())?;
    text.extend_from_slice(b"request ")?;
    text.extend_from_slice(request)?;
    text.push(b'\n')?;
    Ok(())
}

fn push_answers(text: &mut Vec<u8>, answers: &[CertAnswer]) -> Result<(), Mem>
    ensures { OnOk result (text.new.items
        ≡ text.old.items ++ text_of (answer_lines answers.now)) }
{
    push_number_line(text, b"answers", answers.len() as u64)?;
    for answer in answers {
        push_answer(text, answer)?;
    }
    Ok(())
}

fn push_rows(alloc: Global, text: &mut Vec<u8>, rows: &CertRows) -> Result<(), Mem>
    ensures { OnOk result (text.new.items ≡ text.old.items ++ text_of (row_lines rows.now)) }
{
    push_number_line(text, b"rows", rows.len() as u64)?;
    let RowNumbers { parts, rows } = rows.by_number();
    let texts = RowTexts::of(alloc, parts)?;
    text.reserve(room_of(&texts, rows))?;
    push_lines(text, &texts, rows)
}
