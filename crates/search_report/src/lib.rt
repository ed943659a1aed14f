// Makes a search and writes in words what it does.
#![tactic(auto)]

mod calls;
mod data;
mod frame_lines;
mod lines;
pub mod report;
mod words;
