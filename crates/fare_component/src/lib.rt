//! Offers: which fares of a market's sheet are lawful on the flights of one component, as far as the
//! component alone tells, and what the component then costs. `offers` builds the list of a key. An
//! `OfferSource` gives it to the layers above, built anew (`Plain`) or kept.
#![tactic(auto)]

mod component;
mod homes;
mod laws;
mod list;
mod offer;
mod source;

pub use component::is_offered;
pub use homes::weighed;
pub use laws::{no_offers, one_list, prices_are_low, same_offers};
pub use list::offers;
pub use offer::{Offer, OfferRows};
pub use source::{OfferSource, Plain};
