//! The table of a position: each outline that some component from there has, with its least price. What begins with a flight is
//! found once for a leg of a slice, and the table of a position is the merge of what begins with each of its flights. The tails
//! of a slice, and those of them that a place needs, are found once for a search.
//!
//! What begins with a flight: `begun` goes over the paths, `landed` prices groups of fares on those that end in their slice, and
//! `crossing` joins those that cross into the next with its tails. What is found is put in by outlines with their least prices.
#![tactic(auto)]

mod begun;
mod crossing;
mod landed;
mod networks;
mod slice_tails;
mod tables;

pub use fare_ends::{Market, MarketKey, Markets, Masks, same_position};
pub use networks::{FareTails, Network, PlaceTails};
pub use tables::outlines_of;
