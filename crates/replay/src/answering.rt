// Answers the records that ask for something: call, run, open, slot, sweep and complete.
use crate::lines::{call_line, complete_line, open_line, slot_line, sweep_line};
use candidates::entry_tests::Candidate;
use numeric::bits::from_bits;
use pattern_entry::stars::StarIndex;
use pattern_search::Answer;
use preprocess::brightness_list::Place;
use std::ops::ControlFlow;
use stream::broken::Broken;
use stream::lent::Lent;
use stream::records::{Record, Request, option};
use stream::words::Words;
use undivided_run::state::State;

// Answers what a record asks for, and returns the state that it leaves.
pub fn answer(rt: &impl Print, record: &Record, lent: &Lent) -> Result<State, Broken> {
    let state = lent.inputs.state;
    let Some(request) = record.request else {
        return Ok(state);
    };
    match request {
        Request::Call(allowance) => return Ok(one_call(rt, lent, state, allowance)),
        Request::Run(allowance) => return Ok(calls(rt, lent, state, allowance)),
        Request::Open => open_record(rt, lent),
        Request::Slot(slot) => slot_record(rt, lent, slot),
        Request::Sweep => sweep_record(rt, record.words)?,
        Request::Complete => complete_record(rt, lent, record.words),
    }
    Ok(state)
}

// Makes one call of the search from a state and writes its line. Returns the state after it, to go on from or to stop at in a run.
fn call(rt: &impl Print, lent: &Lent, state: State, allowance: u64) -> ControlFlow<State, State> {
    let searched = pattern_search::search(&lent.frame(), &lent.table(), state, allowance);
    call_line(rt, searched);
    match searched.answer {
        Ok(Answer::Candidate(_) | Answer::AllowanceUsed) => ControlFlow::Continue(searched.state),
        Ok(Answer::Ended(_)) | Err(_) => ControlFlow::Break(searched.state),
    }
}

// Answers a call record and returns the state after it.
fn one_call(rt: &impl Print, lent: &Lent, state: State, allowance: u64) -> State {
    match call(rt, lent, state, allowance) {
        ControlFlow::Continue(after) | ControlFlow::Break(after) => after,
    }
}

// Answers a run record: makes calls until one ends the search or is refused, and returns the state after the last.
fn calls(rt: &impl Print, lent: &Lent, state: State, allowance: u64) -> State {
    let mut at = state;
    for _ in 0..u64::MAX {
        match call(rt, lent, at, allowance) {
            ControlFlow::Continue(after) => at = after,
            ControlFlow::Break(after) => return after,
        }
    }
    at
}

// Makes the opening check and writes its line.
fn open_record(rt: &impl Print, lent: &Lent) {
    let opened = opening_check::open_check::open_check(
        lent.inputs.table.slots,
        lent.words(),
        lent.packed(),
        lent.stars(),
    );
    open_line(rt, opened);
}

// Makes a slot read and writes its line.
fn slot_record(rt: &impl Print, lent: &Lent, slot: u64) {
    let found = pattern_catalog::slot_read::slot_of(
        lent.inputs.table.slots,
        lent.words(),
        lent.packed(),
        slot,
    );
    let entry = pattern_catalog::slot_read::entry_of(
        lent.inputs.table.slots,
        lent.words(),
        lent.packed(),
        slot,
    );
    slot_line(rt, found, entry);
}

// Makes a sweep into as many places as the record's word `room` says, and writes its line. A record with a room above 1,024 values can't be
// read.
fn sweep_record(rt: &impl Print, w: Words) -> Result<(), Broken> {
    let mut places = [0.0; 1024];
    let out = places.get_mut(..w[4] as usize).ok_or(Broken)?;
    let swept = fov_sweep::build_fov_sweep(
        from_bits(w[0]),
        option(w[1], w[2]),
        from_bits(w[3]),
        out,
    );
    sweep_line(rt, swept, out);
    Ok(())
}

// Returns the candidate of a payload of kind 11. Completing doesn't use its slot, which is 0 here.
fn candidate_of(w: Words) -> Candidate {
    Candidate {
        pass: w[0],
        places: [w[1], w[2], w[3], w[4]].map(Place),
        slot: 0,
        stars: [w[5], w[6], w[7], w[8]].map(StarIndex),
        field: from_bits(w[9]),
        rebuild: w[10] != 0,
    }
}

// Completes the candidate of a record and writes its line.
fn complete_record(rt: &impl Print, lent: &Lent, w: Words) {
    let completed = complete::completing::complete(
        lent.centroids(),
        lent.order(),
        lent.passes(),
        lent.stars(),
        candidate_of(w),
        from_bits(w[11]),
    );
    complete_line(rt, completed);
}
