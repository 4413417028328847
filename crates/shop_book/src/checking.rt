//! The check of a certificate against a book.
ghost use Rattle.std.specs.Prelude.{◌<◌, ◌-◌, ◌^◌, length, IfOk};
ghost use Rattle.certificate_text.specs.CertText.{IsCertificate};
ghost use Rattle.fare_law.specs.Limits.{IsRequest};
ghost use Rattle.shop_book.specs.Asked.{ReadsBoth};
ghost use Rattle.shop_book.specs.Replies.{Checked};

use crate::asking::request_in;
use crate::certificates::certificate_in;
use crate::replies::Replied;
use certificate::{Certificate, yes_is_best};
use certificate_check::{Verdict, check};
use fare_book::Book;
use fare_law::{Mem, Request};
use lowfare::{no, refused, yes};
use std::alloc::Global;
use whole_case::LoadFault;

/// What a check of the certificate that the bytes are the text of replies, against the book and the request: `yes`,
/// the first check that fails, or the first refusal, of the request or else of the certificate.
pub fn check_text(alloc: Global, book: &Book, request: &[u8], certificate: &[u8]) -> Replied
    requires { length certificate.now < 2 ^ 32 - 1 }
    ensures { IfOk result (λ r. Checked book.now request.now certificate.now r.status r.text) }
{
    let (asked, told) = match read_both(alloc, book, request, certificate) {
        Ok(both) => both,
        Err(LoadFault::Refused(refusal)) => return refused(alloc, &refusal),
        Err(LoadFault::Mem) => return Err(Mem),
    };
    yes_is_best();
    match check(alloc, book, &asked, &told)? {
        Verdict::Yes => yes(alloc),
        Verdict::No { rule, place } => no(alloc, rule, place),
    }
}

/// The request and the certificate.
fn read_both(
    alloc: Global,
    book: &Book,
    request: &[u8],
    certificate: &[u8],
) -> Result<(Request, Certificate), LoadFault>
    requires { length certificate.now < 2 ^ 32 - 1 }
    ensures read { ReadsBoth result book.now request.now certificate.now }
    ensures limits { IfOk result (λ both. IsRequest both.0 × IsCertificate both.1) }
{
    let asked = request_in(alloc, book, request, None)?;
    let told = certificate_in(alloc, certificate)?;
    Ok((asked, told))
}
