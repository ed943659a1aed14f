// Options, settings and states, made from the words of a record's payload.
ghost use Rattle.std.specs.Prelude.{◌≡◌};
ghost use Rattle.stream.specs.Records.{option_of, cap_of, config_of, state_in, position_of, ended_of, state_of};

use crate::words::{Words, long_of};
use combinations::Combination;
use numeric::bits::from_bits;
use search_feed::SearchConfig;
use settings::tolerance::Tolerance;
use undivided_run::state::{Phase, Position, State, Status};

// Returns the option of two words: whether it is present, and the bits of its f32.
#[tactic(auto, unfolding(crate::specs::Records::option_of))]
pub fn option(present: u32, bits: u32) -> Tolerance
    ensures { result ≡ option_of present bits }
{
    match present {
        0 => Tolerance::Absent,
        _ => Tolerance::Given(from_bits(bits)),
    }
}

// Returns the cap of three words: whether it is present, and the low and the high word of its value.
#[tactic(auto, unfolding(crate::specs::Records::cap_of))]
fn cap_of(given: u32, low: u32, high: u32) -> Option<u64>
    ensures { result ≡ cap_of given low high }
{
    match given {
        0 => None,
        _ => Some(long_of(low, high)),
    }
}

// Returns the settings of a payload of kind 3.
#[tactic(auto, unfolding(crate::specs::Records::config_of))]
pub fn config_of(w: Words) -> SearchConfig
    ensures { result ≡ config_of w }
{
    SearchConfig {
        bins: w[0],
        checking: w[1],
        error: from_bits(w[2]),
        radius: from_bits(w[3]),
        matching: option(w[4], w[5]),
        fov: option(w[6], w[7]),
        cap: cap_of(w[8], w[9], w[10]),
        patterns: long_of(w[11], w[12]),
    }
}

// Returns the state in a phase, with the counts of a payload of kind 5.
#[tactic(auto, unfolding(crate::specs::Records::state_in))]
fn state_in(phase: Phase, w: Words) -> State
    ensures { result ≡ state_in phase w }
{
    State {
        phase,
        patterns: long_of(w[9], w[10]),
        reads: long_of(w[11], w[12]),
    }
}

// Returns the next read that a payload of kind 5 names.
#[tactic(auto, unfolding(crate::specs::Records::position_of))]
fn position_of(w: Words) -> Position
    ensures { result ≡ position_of w }
{
    Position {
        pass: w[2],
        four: Combination {
            a: w[3],
            b: w[4],
            c: w[5],
            d: w[6],
        },
        key: w[7],
        probe: w[8],
    }
}

// Returns the ended state of a payload of kind 5 by the number of its status, or none where the number is unknown.
// Kept: a number, as the stored lists have it.
fn ended_of(status: u32, w: Words) -> Option<State>
    ensures { result ≡ ended_of status w }
{
    match Status::try_from(status) {
        Ok(how) => Some(state_in(Phase::Ended(how), w)),
        Err(_) => None,
    }
}

// Returns the state of a payload of kind 5 by the number of its phase, or none where that number or that of its status is unknown.
#[tactic(auto, unfolding(crate::specs::Records::state_of))]
// Kept: numbers, as the stored lists have them; an enum of the phases would be made for this one match.
pub fn state_of(phase: u32, w: Words) -> Option<State>
    ensures { result ≡ state_of phase w }
{
    match phase {
        0 => Some(state_in(Phase::Fresh, w)),
        1 => ended_of(w[1], w),
        2 => Some(state_in(Phase::At(position_of(w)), w)),
        _ => None,
    }
}
