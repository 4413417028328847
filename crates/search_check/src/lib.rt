//! That the certificate which a search gives is accepted by a check: it has a text of its own, the bytes of a case with
//! its lines added spell the case of a check, and that case meets the checks. Laws alone, for callers' proofs.
#![tactic(auto)]

mod accepting;
mod laws;

pub use accepting::search_is_accepted;
pub use laws::{added_certificates_are_spelled, certificates_have_texts, searches_are_accepted};
