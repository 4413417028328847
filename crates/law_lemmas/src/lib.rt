//! Lemmas on lists, tests, names and the law's definitions that several crates above cite: each stands here once.
//! There is no code here; `proofs/` has one file for each subject, all of them given on.
#![tactic(auto)]
