//! Numbers of residuals: their positions and open units stand once each in tables, and a residual is three small
//! numbers and its ticket part. The layer above gets keys that are equal exactly where residuals are, finds the key of a
//! residual, and sorts keys as the residuals sort.
#![tactic(auto)]

mod adding;
mod finding;
mod key;
mod key_reader;
mod known;
mod laws;
mod numbering;
mod part_number;
mod parts;
mod ranking;
mod reading;
mod sorting;
mod spots;
mod ticket_reader;

pub use finding::keys_found;
pub use key::{ResidualKey, SortKey};
pub use key_reader::KeyReader;
pub use parts::ResidualParts;
pub use ranking::{Ranks, ranks_order};
pub use reading::keys_stay;
pub use sorting::sorted_rows;
