// Completing a candidate, with question 14.
#![tactic(auto)]

pub mod completing;
pub mod image_vectors;
pub mod question_14;
