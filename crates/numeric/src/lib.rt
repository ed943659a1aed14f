// The f32 and u64 helpers that document 01 asks for, each with its own definition; most call std's.
#![tactic(auto)]

pub mod bits;
pub mod magnitude;
pub mod min_max;
pub mod truncate;
pub mod wrapping;
