// Turns what a search returns into the plain numbers that a host in C sees.
ghost use Rattle.std.specs.Prelude.{◌≡◌};
ghost use Rattle.c_types.specs.Answer.{plain_numbers, at_numbers, state_numbers, candidate_numbers, used_state, without_candidate, answer_of};

use crate::structs::{StarAnswer, StarCandidate, StarState};
use candidates::entry_tests::{Candidate, no_candidate};
use pattern_search::{Answer, Searched};
use undivided_run::state::{Phase, Position, State};

// Returns a state that names no read, fresh or ended. The numbers of the read are 0.
// Kept: numbers, since C has no such enum.
fn plain_numbers(phase: u32, status: u32, patterns: u64, reads: u64) -> StarState
    ensures { result ≡ plain_numbers phase status patterns reads }
{
    StarState {
        phase,
        status,
        pass: 0,
        four: [0; 4],
        key: 0,
        probe: 0,
        reserved: 0,
        patterns,
        reads,
    }
}

// Returns a state at its next read p.
fn at_numbers(p: Position, patterns: u64, reads: u64) -> StarState
    ensures { result ≡ at_numbers p patterns reads }
{
    let q = p.four;
    StarState {
        phase: 1,
        status: 0,
        pass: p.pass,
        four: [q.a, q.b, q.c, q.d],
        key: p.key,
        probe: p.probe,
        reserved: 0,
        patterns,
        reads,
    }
}

impl From<State> for StarState {
    ghost from_gives = { λ s n. n ≡ state_numbers s };

    // Returns a state as plain numbers.
    fn from(s: State) -> StarState {
        match s.phase {
            Phase::Fresh => plain_numbers(0, 0, s.patterns, s.reads),
            Phase::At(p) => at_numbers(p, s.patterns, s.reads),
            Phase::Ended(t) => plain_numbers(2, u32::from(t), s.patterns, s.reads),
        }
    }
}

impl From<Candidate> for StarCandidate {
    ghost from_gives = { λ c n. n ≡ candidate_numbers c };

    // Returns a candidate as plain numbers.
    fn from(c: Candidate) -> StarCandidate {
        StarCandidate {
            slot: c.slot,
            pass: c.pass,
            place: c.places.map(|p| p.0),
            star: c.stars.map(|s| s.0),
            field: c.field,
            rebuild: u32::from(c.rebuild),
            reserved: 0,
        }
    }
}

// Returns the state to give back with "allowance used": the received one, `raw`, where the allowance is 0, since that changes nothing, and
// otherwise the new one, `made`.
fn used_state(allowance: u64, raw: StarState, made: StarState) -> StarState
    ensures { result ≡ used_state allowance raw made }
{
    if allowance == 0 { raw } else { made }
}

// Returns an answer that gives no candidate; the candidate's numbers are all zero.
fn without_candidate(answer: u32, number: u32, state: StarState) -> StarAnswer
    ensures { result ≡ without_candidate answer number state }
{
    StarAnswer {
        answer,
        number,
        candidate: StarCandidate::from(no_candidate()),
        state,
    }
}

// Returns a call's answer as plain numbers. `raw` is the state received: a refused call gives it back as it came, and so does a call with
// allowance 0 that answers "allowance used".
// Kept: not From, since it is made of three values.
pub fn answer_to_c(raw: StarState, allowance: u64, r: Searched) -> StarAnswer
    ensures { result ≡ answer_of raw allowance r }
{
    let state = StarState::from(r.state);
    match r.answer {
        Ok(Answer::Candidate(c)) => StarAnswer {
            answer: 0,
            number: 0,
            candidate: StarCandidate::from(c),
            state,
        },
        Ok(Answer::AllowanceUsed) => { without_candidate(1, 0, used_state(allowance, raw, state)) }
        Ok(Answer::Ended(t)) => without_candidate(2, u32::from(t), state),
        Err(question) => without_candidate(3, u32::from(question), raw),
    }
}
