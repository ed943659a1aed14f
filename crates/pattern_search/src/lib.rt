// The search call: questions, then reads of the table up to the allowance, from the state received to the state left.
#![tactic(auto)]

mod call;
mod reading;

pub use crate::call::search;
use candidates::entry_tests::Candidate;
use question::Question;
use std::ops::ControlFlow;
use undivided_run::state::{Cursor, State, Status};

// What a call answers that no question refuses.
#[derive(Clone, Copy)]
pub enum Answer {
    Candidate(Candidate),
    AllowanceUsed,
    Ended(Status),
}

// A call's answer, or the question that refuses the call, and the state that the call leaves.
#[derive(Clone, Copy)]
pub struct Searched {
    pub answer: Result<Answer, Question>,
    pub state: State,
}

// What an iteration gives: the reply, where the call is over, else the cursor and the allowance with which it goes on.
pub type Iteration = ControlFlow<Searched, (Cursor, u64)>;
