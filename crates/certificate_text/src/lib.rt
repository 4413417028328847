//! The text of a certificate: it is written line by line into one growing text, and read exactly, from
//! a text or from the lines of a case, or the first line at fault is named. What is read is within the
//! limits of a certificate; whether it meets the checks is for the layer above.
#![tactic(auto)]

mod certificates;
mod faults;
mod laws;
mod lines;
mod lists;
mod reading;
mod request;
mod row_texts;
mod spelled;
mod unread;
mod words;
mod writing;

pub use certificates::{read_case_cert, read_cert};
pub use faults::CertFault;
pub use laws::one_reading;
pub use writing::{cert_text, push_cert_text};
