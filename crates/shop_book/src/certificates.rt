//! The certificate of a text.
ghost use Rattle.std.specs.Prelude.{◌<◌, ◌-◌, ◌^◌, length, IfOk};
ghost use Rattle.certificate_text.specs.CertText.{IsCertificate};
ghost use Rattle.shop_book.specs.Asked.{certificate_of};
ghost use Rattle.whole_case.specs.Stages.{Reads};

use crate::refusals::of_certificate;
use certificate::Certificate;
use certificate_text::read_cert;
use std::alloc::Global;
use whole_case::LoadFault;

/// The certificate that the bytes are the text of, or the first line at fault.
pub(crate) fn certificate_in(alloc: Global, bytes: &[u8]) -> Result<Certificate, LoadFault>
    requires { length bytes.now < 2 ^ 32 - 1 }
    ensures certificate { Reads result (certificate_of bytes.now) }
    ensures limits { IfOk result IsCertificate }
{
    match read_cert(alloc, bytes) {
        Ok(certificate) => Ok(certificate),
        Err(fault) => Err(of_certificate(fault)),
    }
}
