// Questions 1 to 8 of a search call.
#![tactic(auto)]

pub mod question_8;
pub mod questions_1_to_7;
