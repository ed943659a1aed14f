// Makes a search and reports it as it goes on: its frame, its first candidate with the read that gave it, its progress, and how it ended.
ghost use Rattle.std.specs.Prelude.{◌≡◌};
ghost use Rattle.search_report.specs.Calls.{lent, called, let_through, continuing, searched_from};

use crate::data::Data;
use crate::lines::{candidate_line, end_line, progress_line, refusal_line, total_line, where_line};
use candidates::entry_tests::Candidate;
use combinations::Combination;
use pattern_search::{Answer, Searched};
use question::Question;
use undivided_run::state::{Phase, Position, State};

// The allowance of one call, in reads. With it a line of progress comes about once in ten milliseconds.
const CALL: u64 = 100000;

// Returns the next read of a state, or the first read of a pass where the state is still fresh.
fn next_read(state: State, pass: u32) -> Position {
    if let Phase::At(p) = state.phase {
        return p;
    }
    let first = Combination {
        a: 0,
        b: 1,
        c: 2,
        d: 3,
    };
    Position::first_of(pass, first)
}

// Returns the number of candidates found, including the one of this answer.
fn with_answer(found: u64, answer: Result<Answer, Question>) -> u64 {
    found.saturating_add(u64::from(matches!(answer, Ok(Answer::Candidate(_)))))
}

impl Data<'_> {
    // Returns the state before the last of the reads that lead from a state to the count `reads`, by making the same call again with one
    // read less.
    fn state_before(&self, state: State, reads: u64) -> State {
        let between = reads.saturating_sub(state.reads).saturating_sub(1);
        self.call(state, between).state
    }

    // Returns whether the combination of a read has a key of this number, which is what question 8 asks.
    fn has_key(&self, at: Position, key: u32) -> bool {
        let first_probe = State {
            phase: Phase::At(at.at_key(key, 0)),
            patterns: 0,
            reads: 0,
        };
        self.call(first_probe, 0).answer.is_ok()
    }

    // Returns how many keys the combination of a read has, of which there are at most 1,024.
    fn keys_here(&self, at: Position) -> u32 {
        (0..1024)
            .find(|key| !self.has_key(at, *key))
            .unwrap_or(1024)
    }

    // Reports the candidate c that a call from a state gave, with the read that it came from. `left` is the state after the call.
    fn report_candidate(&self, rt: &impl Print, state: State, c: Candidate, left: State) {
        let before = self.state_before(state, left.reads);
        let at = next_read(before, c.pass);
        if c.pass > 0 {
            self.pass_line(rt, c.pass);
        }
        let keys = self.keys_here(at);
        where_line(rt, left.patterns, at, keys, c.slot);
        candidate_line(rt, c, left);
    }

    // Reports what a call from a state answered; a candidate is reported only where none was found before. Returns whether the search goes
    // on.
    #[tactic(auto, unfolding(crate::specs::Calls::continuing))]
    fn report_answer(&self, rt: &impl Print, state: State, s: Searched, found: u64) -> bool
        ensures { result ≡ continuing s.answer }
    {
        match s.answer {
            Ok(Answer::Candidate(c)) => {
                if found == 0 {
                    self.report_candidate(rt, state, c, s.state);
                }
                true
            }
            Ok(Answer::AllowanceUsed) => {
                progress_line(rt, s.state);
                true
            }
            Ok(Answer::Ended(how)) => {
                end_line(rt, how, s.state);
                false
            }
            Err(question) => {
                let _ = print!(rt; "  ");
                refusal_line(rt, question);
                false
            }
        }
    }

    // Makes and reports calls until one ends the search or is refused, and returns the state after the last. There are at most 2^64 - 1
    // calls: a state counts fewer reads than that, and each call that lets the search go on makes at least one.
    fn report_calls(&self, rt: &impl Print, state: State) -> State
        ensures { result ≡ searched_from (lent self.now) 100000 18446744073709551615 state }
    {
        let mut at = state;
        let mut found = 0;
        for round in 0..u64::MAX {
            let s = self.call(at, CALL);
            let goes = self.report_answer(rt, at, s, found);
            found = with_answer(found, s.answer);
            at = s.state;
            if !goes {
                break;
            }
        }
        total_line(rt, found);
        at
    }

    // Reports the frame of a search, or the question that refuses it. Returns whether the questions let the search begin or go on.
    #[tactic(auto, unfolding(crate::specs::Calls::let_through))]
    fn report_frame(&self, rt: &impl Print, state: State) -> bool
        ensures { result ≡ let_through (called (lent self.now) state 0).answer }
    {
        match self.call(state, 0).answer {
            Err(question) => {
                refusal_line(rt, question);
                false
            }
            Ok(_) => {
                self.frame_line(rt);
                self.pass_line(rt, 0);
                true
            }
        }
    }

    // Makes and reports a whole search from a state, in calls of CALL reads, and returns the state that it leaves.
    pub fn report_search(&self, rt: &impl Print, state: State) -> State
        ensures { result ≡ searched_from (lent self.now) 100000 18446744073709551615 state }
    {
        if !self.report_frame(rt, state) {
            return state;
        }
        self.report_calls(rt, state)
    }

    // Makes and reports one call with an allowance, and returns the state that it leaves.
    pub fn report_call(&self, rt: &impl Print, state: State, allowance: u64) -> State
        ensures { result ≡ (called (lent self.now) state allowance).state }
    {
        if !self.report_frame(rt, state) {
            return state;
        }
        let s = self.call(state, allowance);
        self.report_answer(rt, state, s, 0);
        s.state
    }
}
