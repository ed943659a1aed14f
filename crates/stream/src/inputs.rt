// The inputs, which are what the records so far have set: as they are at the start, and with one part replaced.
ghost use Rattle.std.specs.Prelude.{◌≡◌};
ghost use Rattle.stream.specs.Records.{at_start, with_table, with_frame, with_config, with_state};

use crate::records::{FrameCounts, Inputs, TableCounts};
use crate::words::Words;
use search_feed::SearchConfig;
use settings::tolerance::Tolerance;
use undivided_run::state::State;

// Returns the inputs at the start: all parts are empty, and the state is fresh.
#[tactic(auto, unfolding(crate::specs::Records::at_start))]
pub fn start() -> Inputs
    ensures { result ≡ at_start }
{
    let table = TableCounts {
        slots: 0,
        words: 0,
        packed: 0,
        stars: 0,
    };
    let frame = FrameCounts {
        centroids: 0,
        order: 0,
        passes: 0,
    };
    let config = SearchConfig {
        bins: 0,
        checking: 0,
        error: 0.0,
        radius: 0.0,
        matching: Tolerance::Absent,
        fov: Tolerance::Absent,
        cap: None,
        patterns: 0,
    };
    Inputs {
        table,
        frame,
        config,
        state: State::fresh(),
    }
}

impl Inputs {
    // Returns the inputs with the table that the words of a payload of kind 1 describe.
    #[tactic(auto, unfolding(crate::specs::Records::with_table))]
    pub fn with_table(self, w: Words) -> Inputs
        ensures { result ≡ with_table w self }
    {
        let table = TableCounts {
            slots: u64::from(w[0]),
            words: w[1],
            packed: w[2],
            stars: w[3],
        };
        Inputs { table, ..self }
    }

    // Returns the inputs with the frame that the words of a payload of kind 2 describe.
    #[tactic(auto, unfolding(crate::specs::Records::with_frame))]
    pub fn with_frame(self, w: Words) -> Inputs
        ensures { result ≡ with_frame w self }
    {
        let frame = FrameCounts {
            centroids: w[0],
            order: w[1],
            passes: w[2],
        };
        Inputs { frame, ..self }
    }

    // Returns the inputs with other settings.
    #[tactic(auto, unfolding(crate::specs::Records::with_config))]
    pub fn with_config(self, config: SearchConfig) -> Inputs
        ensures { result ≡ with_config config self }
    {
        Inputs { config, ..self }
    }

    // Returns the inputs with another state.
    #[tactic(auto, unfolding(crate::specs::Records::with_state))]
    pub fn with_state(self, state: State) -> Inputs
        ensures { result ≡ with_state state self }
    {
        Inputs { state, ..self }
    }
}
