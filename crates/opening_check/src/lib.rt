// The opening check of a pattern table. Asks question 10.
#![tactic(auto)]

pub mod open_check;
