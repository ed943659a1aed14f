// The source's pattern_catalog.rs: the blocks of the table, the place of a slot's entry, and the slot read. Asks questions 6 and 11.
#![tactic(auto)]

pub mod blocks;
pub mod count_ones;
pub mod rank;
pub mod slot_read;
