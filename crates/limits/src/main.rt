// Makes calls at the limits that document 01 names after its cases (256 centroids pass, 257 are refused with 1; 3 kept are TooFew, 4 are
// tried), and calls that end with statuses which no recorded list shows, and writes what each call answers.
#![tactic(auto)]

use pattern_search::{Answer, Searched};
use search_feed::SearchConfig;
use search_feed::lent::{Frame, Table};
use settings::tolerance::Tolerance;
use std::fmt;
use undivided_run::state::{State, Status};

// What a call answered, to be written as its name with its status or the number of its question, and the counts of its state.
#[derive(Clone, Copy)]
struct Line(Searched);

// Returns the name of a status.
// Kept: replay has the same names and much the same `Line`, but below the two are only crates that are burned in, where the oracle's words don't belong.
fn name_of(status: Status) -> &'static str {
    match status {
        Status::TooFew => "toofew",
        Status::NoMatch => "nomatch",
        Status::Timeout => "timeout",
    }
}

impl fmt::Display for Line {
    fn fmt<W: fmt::Write>(&self, f: &mut fmt::Formatter<W>) -> fmt::Result {
        match self.0.answer {
            Ok(Answer::Candidate(_)) => write!(f, "candidate")?,
            Ok(Answer::AllowanceUsed) => write!(f, "used")?,
            Ok(Answer::Ended(status)) => write!(f, "ended {}", name_of(status))?,
            Err(question) => write!(f, "refused {}", u32::from(question))?,
        }
        let state = self.0.state;
        write!(f, " patterns {} reads {}", state.patterns, state.reads)
    }
}

// Returns settings with this cap, for a table of one pattern: 1 bin, 64 checking stars and a table's error of 1/8.
fn settings(cap: Option<u64>) -> SearchConfig {
    SearchConfig {
        bins: 1,
        checking: 64,
        error: 0.125,
        radius: 0.125,
        matching: Tolerance::Absent,
        fov: Tolerance::Absent,
        cap,
        patterns: 1,
    }
}

// Makes a call with 100 reads from a fresh state over a table of these words, of whose slots none is filled, and writes the answer. A line
// that can't be written is left out.
fn call(rt: &impl Print, name: &str, frame: &Frame<'_>, slots: u64, words: &[u64]) {
    let table = Table {
        slots,
        words,
        packed: &[0; 22],
        stars: &[0.0; 3],
    };
    let line = Line(pattern_search::search(frame, &table, State::fresh(), 100));
    let _ = println!(rt; "{name}: {line}");
}

// Makes a call from a fresh state over a table of one empty slot, and writes the answer.
fn over_one_slot(rt: &impl Print, name: &str, frame: &Frame<'_>) {
    call(rt, name, frame, 1, &[0; 8]);
}

// A brightness list of four spots, in their order.
const FOUR: [u32; 4] = [0, 1, 2, 3];

// A brightness list of three spots, in their order.
const THREE: [u32; 3] = [0, 1, 2];

// The one pass that keeps equal spots, since its cosine is 1.
const PASS: [f32; 3] = [0.5, 0.125, 1.0];

// The coordinates of four spots, which are equal.
const SPOTS: [f32; 8] = [0.0; 8];

// Makes calls at the limits that document 01 names after its cases.
fn limits(rt: &impl Print) {
    let most = Frame {
        centroids: &[0.0; 512],
        order: &FOUR,
        config: settings(None),
        passes: &PASS,
    };
    over_one_slot(rt, "256 centroids, 4 kept", &most);
    let more = Frame {
        centroids: &[0.0; 514],
        ..most
    };
    over_one_slot(rt, "257 centroids", &more);
    let three = Frame {
        order: &THREE,
        ..most
    };
    over_one_slot(rt, "256 centroids, 3 kept", &three);
}

// Makes calls that end without a read: "Cap 0 is Timeout even with no spots."
// "A pass below 4 kept has status TooFew, else one with 0 slots or a pattern count of 0 NoMatch"
fn without_a_read(rt: &impl Print) {
    let none = Frame {
        centroids: &[],
        order: &[],
        config: settings(Some(0)),
        passes: &PASS,
    };
    over_one_slot(rt, "no spots, cap 0", &none);
    let three = Frame {
        centroids: &SPOTS,
        order: &THREE,
        config: settings(None),
        passes: &PASS,
    };
    call(rt, "3 kept, 0 slots", &three, 0, &[]);
}

// Makes calls with two passes: "Before each pass and each combination, a cap already reached ends it with Timeout." "The last pass's status
// ends the run." Equal spots are all kept under the cosine 1, and only one of them under the cosine 0.
fn over_two_passes(rt: &impl Print) {
    let fewer = Frame {
        centroids: &SPOTS,
        order: &FOUR,
        config: settings(Some(1)),
        passes: &[0.5, 0.125, 1.0, 0.5, 0.125, 0.0],
    };
    over_one_slot(rt, "4 kept then 1, cap 1", &fewer);
    let later = Frame {
        config: settings(Some(2)),
        ..fewer
    };
    over_one_slot(rt, "4 kept then 1, cap 2", &later);
    let more = Frame {
        passes: &[0.5, 0.125, 0.0, 0.5, 0.125, 1.0],
        ..fewer
    };
    over_one_slot(rt, "1 kept then 4, cap 1", &more);
}

// Makes all the calls.
fn main(rt: HostRuntime) {
    limits(&rt);
    without_a_read(&rt);
    over_two_passes(&rt);
}
