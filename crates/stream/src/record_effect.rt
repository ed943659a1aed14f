// The effect of a record: what it sets in the inputs and what it asks for.
ghost use Rattle.std.specs.Prelude.{◌≡◌};
ghost use Rattle.std.specs.Result.{result_ok};
ghost use Rattle.stream.specs.Kind.{number_of};
ghost use Rattle.stream.specs.Records.{record_of};

use crate::broken::Broken;
use crate::from_words::{config_of, state_of};
use crate::kind::Kind;
use crate::records::{Inputs, Record, Request};
use crate::words::{Words, long_of};
use undivided_run::state::State;

// Returns the effect of a record of this kind whose payload begins with the words w, given the inputs before it. A record of an
// unknown kind can't be read, nor can a state record, kind 5, whose phase or status is unknown.
#[tactic(auto, unfolding(crate::specs::Records::record_of, crate::specs::Records::request_of, crate::specs::Records::inputs_after))]
pub fn record_of(kind: Kind, w: Words, inputs: Inputs) -> Result<Record, Broken>
    ensures { result_ok result ≡ record_of (number_of kind) w inputs }
{
    let long = long_of(w[0], w[1]);
    let (request, after) = match kind {
        Kind::Table => (None, inputs.with_table(w)),
        Kind::Frame => (None, inputs.with_frame(w)),
        Kind::Settings => (None, inputs.with_config(config_of(w))),
        Kind::Fresh => (None, inputs.with_state(State::fresh())),
        Kind::State => (None, inputs.with_state(state_of(w[0], w).ok_or(Broken)?)),
        Kind::Call => (Some(Request::Call(long)), inputs),
        Kind::Run => (Some(Request::Run(long)), inputs),
        Kind::Open => (Some(Request::Open), inputs),
        Kind::Slot => (Some(Request::Slot(long)), inputs),
        Kind::Sweep => (Some(Request::Sweep), inputs),
        Kind::Complete => (Some(Request::Complete), inputs),
        Kind::Unknown => return Err(Broken),
    };
    Ok(Record {
        request,
        words: w,
        inputs: after,
    })
}
