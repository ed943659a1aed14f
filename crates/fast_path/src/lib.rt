// Skips table reads that give no candidate and counts them. Such a read finds an empty slot, or a valid entry with another mark.
#![tactic(auto)]

pub mod probe_chain;
pub mod skip_reads;
pub mod valid_stars;
