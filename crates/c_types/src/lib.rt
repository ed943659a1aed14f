// The structs of the C interface, and their conversion to and from the library's types.
#![tactic(auto)]

pub mod answer;
pub mod candidate;
pub mod config;
pub mod results;
pub mod state;
pub mod structs;
