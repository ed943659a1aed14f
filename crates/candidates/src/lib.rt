// The tests of an entry in their order, the struct Candidate, and the rebuild mark.
#![tactic(auto)]

pub mod comparisons;
pub mod entry_tests;
pub mod star_vectors;
