//! What it says of a text, or of the lines of a case, that a certificate is read from it.
ghost use Rattle.certificate_text.specs.Readings.{NoFault, OneCertificate, OneFault};

use residual_keys::one_residual_text;
use word_text::{cuts_tell, numbers_tell};

/// A text, or the lines of a case, is of one certificate or has one first fault, and not both. So what
/// is written for a certificate is read again as it.
pub fn one_reading()
    ensures certificate { OneCertificate }
    ensures none { NoFault }
    ensures fault { OneFault }
{
    cuts_tell();
    numbers_tell();
    one_residual_text();
}
