//! Certificates: the answers of a search, with bounds on what is left of each residual. Whoever has
//! the book and the request can check one and need not search: where the five checks hold, the
//! answers are the best tickets. The layer above reads certificates, checks them and makes them.
#![tactic(auto)]

mod laws;
mod numbered;
mod parts;
mod rows;
mod worked;

pub use laws::{one_failure, search_meets_checks, yes_is_best};
pub use numbered::NumberedRow;
pub use parts::{CertAnswer, CertRow, Certificate};
pub use rows::{CertRows, RowNumbers};
pub use worked::{one_way_fails, one_way_meets, one_way_of};
