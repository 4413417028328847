//! Tests of the public calls that no case of the program shows: on vectors, days, seats and shared offers, on paths, a code and the
//! texts of residuals, on the search for the least derivations and the least runs of a graph, and on streams and texts that are
//! written. What a case can show, the faults of texts among it, the examples show. A call that answers want of memory meets its
//! contract; these tests refuse it. Tests stand in crates of their own, since a crate with tests is proved twice. Nothing stands on
//! this crate.
#![tactic(auto)]

#[cfg(test)]
mod certificates;
#[cfg(test)]
mod days;
#[cfg(test)]
mod draws;
#[cfg(test)]
mod filings;
#[cfg(test)]
mod masks;
#[cfg(test)]
mod nodes;
#[cfg(test)]
mod orders;
#[cfg(test)]
mod paths;
#[cfg(test)]
mod residuals;
#[cfg(test)]
mod rules;
#[cfg(test)]
mod runs;
#[cfg(test)]
mod seat_rows;
#[cfg(test)]
mod streams;
