//! The certificate of a case.
ghost use Rattle.std.specs.Prelude.{IfOk};
ghost use Rattle.certificate_text.specs.CertText.{IsCertificate};
ghost use Rattle.whole_case.specs.Certificates as Certificates;
ghost use Rattle.whole_case.specs.Stages.{Reads};

use crate::LoadFault;
use crate::reasons::of_certificate;
use case_text::CaseLine;
use certificate::Certificate;
use certificate_text::read_case_cert;
use fare_law::List;
use std::alloc::Global;

/// The certificate whose lines these are. A missing line has the number `end`.
pub fn certificate_in(
    alloc: Global,
    lines: &List<CaseLine<'_>>,
    end: u32,
) -> Result<Certificate, LoadFault>
    ensures certificate { Reads result (Certificates.certificate_in lines.now end) }
    ensures limits { IfOk result IsCertificate }
{
    match read_case_cert(alloc, lines.as_slice(), end) {
        Ok(certificate) => Ok(certificate),
        Err(fault) => Err(of_certificate(fault)),
    }
}
