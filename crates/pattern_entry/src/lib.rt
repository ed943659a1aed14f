// A packed entry of the pattern table, and the star slice. Asks question 7, and question 9 for a star and for an entry.
#![tactic(auto)]

pub mod entry;
pub mod stars;
pub mod validity;
