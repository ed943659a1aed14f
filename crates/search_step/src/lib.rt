// Works out the read that a call starts with, the first read of a pass, and the read after a read.
#![tactic(auto)]

pub mod call_start;
pub mod next_pass;
pub mod next_read;
pub mod pass_start;
pub mod step;
