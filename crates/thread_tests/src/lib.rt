//! Tests of what threads share: what a watch sees of a clerk's filings, what desks find while filings come, the core of interleavings
//! and the joint search on a board; that books, watches, receipts, clerks and stores of nodes may cross to other threads; and of the
//! moves of residuals over the same books. A call that answers want of memory, and a board or a store that never shares, meet their
//! contracts; these tests refuse them. Nothing stands on this crate.
#![tactic(auto)]

#[cfg(test)]
mod boards;
#[cfg(test)]
mod books;
#[cfg(test)]
mod cases;
#[cfg(test)]
mod counting;
#[cfg(test)]
mod crossings;
#[cfg(test)]
mod desks;
#[cfg(test)]
mod filings;
#[cfg(test)]
mod inventing;
#[cfg(test)]
mod keys;
#[cfg(test)]
mod meanwhile;
#[cfg(test)]
mod moves;
#[cfg(test)]
mod round_trip;
#[cfg(test)]
mod two_carriers;
#[cfg(test)]
mod versions;
#[cfg(test)]
mod workloads;
#[cfg(test)]
mod worlds;
