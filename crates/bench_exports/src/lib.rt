// Functions that are exported for measuring only.
#![tactic(auto)]

pub mod entry;
pub mod leaves;
pub mod slices;
