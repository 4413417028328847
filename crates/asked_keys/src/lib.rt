//! What the keys of residuals ask for, settled with a source of offers. It finds the keys by the positions of the residuals
//! alone, and knows nothing of the search that reached them.
#![tactic(auto)]

mod asking;
mod homes;
mod offered;
mod served;
mod settling;

pub use asking::add_asked;
pub use settling::settle_keys;
