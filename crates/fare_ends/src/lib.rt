//! A book's fares and seats as paths ask for them: the fares of a carrier between two places, both ways, by rules and
//! kinds; rules by numbers; the classes with seats on a flight. Each is found once for a search.
//!
//! And laws of paths, over the definitions: what a rule says of the flights with which a path begins and ends, what begins at a
//! position with one flight, which classes of seats are open on parts, floors of what a group of fares costs on paths, and a
//! position's paths as heads and tails. Each is a definition of `specs/` with a lemma of `proofs/` that shows it; the crates
//! above cite the lemmas.
#![tactic(auto)]

mod cases;
mod ends;
mod filed;
mod gathering;
mod markets;
mod masks;
mod narrowing;
mod rule_numbers;
mod same;
mod tail_ends;

pub use cases::{TableCase, is_less, lesser};
pub use ends::{EndGroup, EndKey, FareEnd, FareEnds};
pub use filed::has_fare;
pub use gathering::{first_flight, last_flight, schedule_of};
pub use markets::{Market, MarketKey, Markets};
pub use masks::Masks;
pub use narrowing::fare_tails;
pub use rule_numbers::{KnownRule, RuleNumbers};
pub use same::{same_after, same_position};
pub use tail_ends::{TailEnds, ends_of};
