//! The case of a check.
ghost use Rattle.std.specs.Prelude.{◌<◌, ◌+◌, ◌^◌, length, IfOk};
ghost use Rattle.certificate_text.specs.CertText.{IsCertificate};
ghost use Rattle.whole_case.specs.Cases as Cases;
ghost use Rattle.whole_case.specs.Certificates as Certificates;
ghost use Rattle.whole_case.specs.Stages.{Reads};

use crate::LoadFault;
use crate::asked::{AskedCase, asked_case};
use crate::certificates::certificate_in;
use crate::histories::check_version;
use crate::requests::with_best;
use case_text::CaseKind;
use certificate::Certificate;
use fare_book::Book;
use fare_law::Request;
use std::alloc::Global;

/// The version of the book and the request that a certificate is checked against, and the certificate.
#[derive(Drop)]
pub struct CheckCase {
    pub book: Book,
    pub request: Request,
    pub certificate: Certificate,
}

/// The case of a check that the bytes spell, or its first refusal, by stages. `best` replaces the
/// number of tickets of the request, and `at` names a version, by default the last.
pub fn load_check_case(
    alloc: Global,
    bytes: &[u8],
    best: Option<u16>,
    at: Option<u32>,
) -> Result<CheckCase, LoadFault>
    requires { length bytes.now + 1 < 2 ^ 32 }
    ensures case { Reads result (Cases.check_case best at bytes.now) }
    ensures limits { IfOk result (λ found. IsCertificate found.certificate) }
{
    let asked = asked_case(alloc, bytes, CaseKind::Check, at)?;
    let certificate = certificate_of(alloc, &asked, at)?;
    let (book, request) = asked.into_parts();
    Ok(CheckCase {
        book,
        request: with_best(request, best),
        certificate,
    })
}

/// The certificate of a case that has the version of this number.
fn certificate_of(
    alloc: Global,
    asked: &AskedCase<'_>,
    at: Option<u32>,
) -> Result<Certificate, LoadFault>
    ensures certificate { Reads result (Cases.in_version at asked.now (Certificates.certificate_in asked.now.certificate asked.now.end)) }
    ensures limits { IfOk result IsCertificate }
{
    let certificate = certificate_in(alloc, &asked.certificate, asked.end)?;
    check_version(at, &asked.filings)?;
    Ok(certificate)
}
