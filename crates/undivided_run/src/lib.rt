// The search state and the probing rule. Document 01's "The undivided run" and "Calls on it" are defined in specs/; proofs/ has the laws.
#![tactic(auto)]

pub mod probing;
pub mod state;
