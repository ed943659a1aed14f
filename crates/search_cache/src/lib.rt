// What a call keeps between reads: the kept list of a pass, the angles of its spots, and the keys of a combination. Each is worked out only when
// it is first needed.
#![tactic(auto)]

pub mod angles;
pub mod combination;
pub mod pass;
pub mod read;
