// The meaning of the records of a replay stream: what a record of each kind sets and what it asks for. The records are read in next_record.rt.

pub use crate::from_words::option;
pub use crate::inputs::start;
pub use crate::record_effect::record_of;
use crate::words::Words;
use search_feed::SearchConfig;
use undivided_run::state::State;

// The table: its slot count, and how many words, packed bytes and star floats it has. Their values are in the lent arrays.
#[derive(Clone, Copy)]
pub struct TableCounts {
    pub slots: u64,
    pub words: u32,
    pub packed: u32,
    pub stars: u32,
}

// The frame: how many floats of centroids, indices in the brightness list and floats of passes it has. Their values are in the lent arrays.
#[derive(Clone, Copy)]
pub struct FrameCounts {
    pub centroids: u32,
    pub order: u32,
    pub passes: u32,
}

// The inputs, which are what the records so far have set: how much of each lent array is in use, the settings and the state.
#[derive(Clone, Copy)]
pub struct Inputs {
    pub table: TableCounts,
    pub frame: FrameCounts,
    pub config: SearchConfig,
    pub state: State,
}

// What a record asks for. `Call` and `Run` hold an allowance and `Slot` a slot number; a sweep and completing a candidate take their numbers
// from the words of the record.
#[derive(Clone, Copy)]
pub enum Request {
    Call(u64),
    Run(u64),
    Open,
    Slot(u64),
    Sweep,
    Complete,
}

// The effect of one record: what it asks for, if anything, the first words of its payload, and the inputs after it.
#[derive(Clone, Copy)]
pub struct Record {
    pub request: Option<Request>,
    pub words: Words,
    pub inputs: Inputs,
}
