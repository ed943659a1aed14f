// Turns a state from a host in C into the library's own type. The numbers `phase` and `status` are its tags.
// An unknown tag becomes a state that question 8 refuses, so that the questions keep their order and the first no wins.
ghost use Rattle.std.specs.Prelude.{◌≡◌};
ghost use Rattle.c_types.specs.State.{position_of, ended_of, state_of, unknown};

use crate::structs::StarState;
use combinations::Combination;
use undivided_run::state::{Phase, Position, State, Status};

// Returns the read that a state is at.
fn position_of(raw: StarState) -> Position
    ensures { result ≡ position_of raw }
{
    let [a, b, c, d] = raw.four;
    let four = Combination { a, b, c, d };
    Position {
        pass: raw.pass,
        four,
        key: raw.key,
        probe: raw.probe,
    }
}

// Returns what a state with an unknown tag becomes: a fresh state that counts a combination, which question 8 refuses.
fn unknown_state() -> State
    ensures { result ≡ unknown }
{
    State {
        phase: Phase::Fresh,
        patterns: 1,
        reads: 0,
    }
}

// Returns an ended state by the number of its status.
// Kept: a number, since C has no such enum.
fn ended_of(status: u32, patterns: u64, reads: u64) -> State
    ensures { result ≡ ended_of status patterns reads }
{
    match Status::try_from(status) {
        Ok(how) => State {
            phase: Phase::Ended(how),
            patterns,
            reads,
        },
        Err(_) => unknown_state(),
    }
}

impl From<StarState> for State {
    ghost from_gives = { λ raw s. s ≡ state_of raw };

    // Returns the state by the number of its phase.
    fn from(raw: StarState) -> State {
        let phase = match raw.phase {
            0 => Phase::Fresh,
            1 => Phase::At(position_of(raw)),
            2 => return ended_of(raw.status, raw.patterns, raw.reads),
            _ => return unknown_state(),
        };
        State {
            phase,
            patterns: raw.patterns,
            reads: raw.reads,
        }
    }
}
