//! Reading a certificate.
ghost use Rattle.std.specs.Prelude.{◌-◌, ◌<◌, ◌^◌, ◌∷◌, [], length, IfOk, IfErr, codes};
ghost use Rattle.certificate.specs.declared.parts.Certificate.{Certificate as CertificateData};
ghost use Rattle.certificate_text.specs.CertText.{CertLines, CertText, IsCertificate};
ghost use Rattle.certificate_text.specs.Faults.{Due, FaultFrom, Passed, PassedLists};
ghost use Rattle.certificate_text.specs.Lines.{IsAnswer, IsRow, number_line};
ghost use Rattle.certificate_text.specs.Readings.{IsOfCert, IsRead};
ghost use Rattle.certificate_text.specs.Unread.{HasRoom, Numbered, Text, unread};
ghost use Rattle.fare_law.specs.Lists.{Each};

use crate::CertFault;
use crate::laws::one_reading;
use crate::lists::{answers, rows};
use crate::unread::Lines;
use case_text::CaseLine;
use certificate::{CertAnswer, CertRows, Certificate};
use fare_law::List;
use std::alloc::Global;

/// The certificate whose text the bytes are, or the first line at fault, from 1. A certificate within
/// its limits is read from its text.
///
/// `Count` exactly where an answer is due and a line `rows n` stands there, or no line; where a row is
/// due and the line `end` stands there, or no line; and where one more answer or row follows the
/// stated count. `Syntax` exactly where any other line isn't of the form that is due, is missing, or
/// follows `end`. Each line ends with a line feed. A missing line has the number after the last.
pub fn read_cert(alloc: Global, bytes: &[u8]) -> Result<Certificate, CertFault>
    requires { length bytes.now < 2 ^ 32 - 1 }
    ensures text { IfOk result (λ c. CertText c bytes.now) }
    ensures limits { IfOk result IsCertificate }
    ensures fault { IfErr result (FaultFrom Due.Head (Text bytes.now 1)) }
    ensures again { (c : CertificateData) → IsCertificate c → CertText c bytes.now → IsRead c result }
{
    one_reading();
    read_from(
        alloc,
        Lines::Text {
            text: bytes,
            number: 1,
        },
    )
}

/// The certificate whose lines these are, or the first line at fault, as `read_cert` names it. Lines
/// have the numbers that they have in their case; a missing line has the number `end`, that of the
/// case's line `#end`.
pub fn read_case_cert(
    alloc: Global,
    lines: &[CaseLine<'_>],
    end: u32,
) -> Result<Certificate, CertFault>
    ensures lines { IfOk result (λ c. CertLines c lines.now) }
    ensures limits { IfOk result IsCertificate }
    ensures fault { IfErr result (FaultFrom Due.Head (Numbered lines.now end)) }
    ensures again { (c : CertificateData) → IsCertificate c → CertLines c lines.now → IsRead c result }
{
    one_reading();
    read_from(alloc, Lines::Numbered { lines, end })
}

// The certificate whose text or lines are left, or the first fault.
fn read_from(alloc: Global, start: Lines<'_>) -> Result<Certificate, CertFault>
    requires { HasRoom (unread start) }
    ensures of { IfOk result (IsOfCert (unread start.entry)) }
    ensures limits { IfOk result IsCertificate }
    ensures fault { IfErr result (FaultFrom Due.Head (unread start.entry)) }
{
    let (number, at) = version(start)?;
    let (request, at) = at.request(alloc)?;
    let (answers, rows) = lists(alloc, at)?;
    Ok(Certificate {
        number,
        request,
        answers,
        rows,
    })
}

// The number of the version, and what is left after the first two lines.
fn version(start: Lines<'_>) -> Result<(u32, Lines<'_>), CertFault>
    requires { HasRoom (unread start) }
    ensures ok { IfOk result (λ x. Passed Due.Head (unread start.entry)
        (codes "certificate 1" ∷ number_line (codes "version") x.0 ∷ []) Due.Asked (unread x.1)) }
    ensures fits { IfOk result (λ x. x.0 < 2 ^ 32) }
    ensures fault { IfErr result (FaultFrom Due.Head (unread start.entry)) }
{
    let at = start.head()?;
    let (number, left) = at.version()?;
    Ok((number, left))
}

// The answers and the rows, after which the last line stands and nothing else.
fn lists(alloc: Global, start: Lines<'_>) -> Result<(List<CertAnswer>, CertRows), CertFault>
    requires { HasRoom (unread start) }
    ensures ok { IfOk result (λ x. PassedLists (unread start.entry) x.0 x.1) }
    ensures answers { IfOk result (λ x. Each IsAnswer x.0 × (length x.0 < 2 ^ 32)) }
    ensures rows { IfOk result (λ x. Each IsRow x.1 × (length x.1 < 2 ^ 32)) }
    ensures fault { IfErr result (FaultFrom Due.AnswerCount (unread start.entry)) }
{
    let (answers, at) = answers(alloc, start)?;
    let (rows, at) = rows(alloc, at)?;
    at.end()?;
    Ok((answers, rows))
}
