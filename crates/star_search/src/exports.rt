// The search for hosts in C, with plain numbers in and out. include/star_search.h tells a host what is said here. The contract of each function
// applies the definition of the library's call to what comes from C, and turns the result into numbers for C; c_types defines both steps.
ghost use Rattle.std.specs.Prelude.{◌≡◌, length};
ghost use Rattle.pattern_catalog.specs.SlotRead.{slot_read};
ghost use Rattle.opening_check.specs.OpenCheck.{opening};
ghost use Rattle.fov_sweep.specs.Sweep.{swept_of, later_of};
ghost use Rattle.complete.specs.Completing.{completed_of};
ghost use Rattle.c_types.specs.Config.{option_of};
ghost use Rattle.c_types.specs.Candidate.{candidate_from};
ghost use Rattle.c_types.specs.Results.{opened_number, slot_numbers, part_numbers, swept_numbers, completed_numbers};
ghost use Rattle.star_search.specs.Call.{answered};
ghost use Rattle.star_search.specs.Version.{version};

use c_types::structs::{
    StarAnswer, StarCandidate, StarCompleted, StarPart, StarSettings, StarSlot, StarState,
    StarSwept,
};
use candidates::entry_tests::Candidate;
use search_feed::SearchConfig;
use search_feed::lent::{Frame, Table};
use undivided_run::state::State;

// Returns the version of this interface, which is the header's STAR_SEARCH_VERSION, so that a host can compare the two. It is raised
// whenever a struct, a function or any answer changes.
#[unsafe(no_mangle)]
pub extern "C" fn star_search_version() -> u32
    ensures { result ≡ version }
{
    let version: u32 = 1;
    version
}

// The opening check: 0, or the number of the question that refuses.
#[unsafe(no_mangle)]
pub extern "C" fn star_open(slots: u64, words: &[u64], packed: &[u8], stars: &[f32]) -> u32
    ensures { result ≡ opened_number (opening slots words.now packed.now stars.now) }
{
    match opening_check::open_check::open_check(slots, words, packed, stars) {
        Ok(()) => 0,
        Err(question) => u32::from(question),
    }
}

// One search call: takes the search state and an allowance of reads, and returns the answer and the state after it.
// Kept: C's parameters.
#[unsafe(no_mangle)]
pub extern "C" fn star_search(
    centroids: &[f32],
    order: &[u32],
    settings: StarSettings,
    passes: &[f32],
    slots: u64,
    words: &[u64],
    packed: &[u8],
    stars: &[f32],
    state: StarState,
    allowance: u64,
) -> StarAnswer
    ensures { result ≡ answered state (record { centroids = centroids.entry.now; order = order.now; settings = settings; passes = passes.now; slots = slots; words = words.now; packed = packed.now; stars = stars.now; allowance = allowance }) }
{
    let config = SearchConfig::from(settings);
    let frame = Frame {
        centroids,
        order,
        config,
        passes,
    };
    let table = Table {
        slots,
        words,
        packed,
        stars,
    };
    let from = State::from(state);
    let said = pattern_search::search(&frame, &table, from, allowance);
    c_types::answer::answer_to_c(state, allowance, said)
}

// The slot read: returns whether a slot is filled, empty or refused.
#[unsafe(no_mangle)]
pub extern "C" fn star_slot(slots: u64, words: &[u64], packed: &[u8], slot: u64) -> StarSlot
    ensures { result ≡ slot_numbers (slot_read slots words.now packed.now slot) }
{
    let held = pattern_catalog::slot_read::slot_of(slots, words, packed, slot);
    StarSlot::from(held)
}

// The part of the packed section that a slot read hands back, the entry's own bytes. It is given as offset and length, since a function for C
// can't return a slice; everywhere else it is a slice.
#[unsafe(no_mangle)]
pub extern "C" fn star_entry(slots: u64, words: &[u64], packed: &[u8], slot: u64) -> StarPart
    ensures { result ≡ part_numbers (slot_read slots words.now packed.now slot) }
{
    match pattern_catalog::slot_read::find(slots, words, packed, slot) {
        Ok(Some(place)) => StarPart {
            offset: place * 22,
            length: 22,
        },
        Ok(None) | Err(_) => StarPart {
            offset: 0,
            length: 0,
        },
    }
}

// The sweep: writes the fields of view to try to `out` and returns their count. `error_given` says whether the error is given (1) or absent (0).
#[unsafe(no_mangle)]
pub extern "C" fn star_sweep(
    estimate: f32,
    error_given: u32,
    error: f32,
    step: f32,
    out: &mut [f32],
) -> StarSwept
    ensures { (result ≡ swept_numbers (swept_of estimate (option_of error_given error) step (length out.old))) × (out.new ≡ later_of estimate (option_of error_given error) step out.old) }
{
    let reach = c_types::config::option_of(error_given, error);
    StarSwept::from(fov_sweep::build_fov_sweep(estimate, reach, step, out))
}

// Completes a candidate: returns its four image vectors in matched order and its four star vectors.
#[unsafe(no_mangle)]
pub extern "C" fn star_complete(
    centroids: &[f32],
    order: &[u32],
    passes: &[f32],
    stars: &[f32],
    candidate: StarCandidate,
    scale: f32,
) -> StarCompleted
    ensures { result ≡ completed_numbers (completed_of centroids.now order.now passes.now stars.now (candidate_from candidate) scale) }
{
    let given = Candidate::from(candidate);
    let completed = complete::completing::complete(centroids, order, passes, stars, given, scale);
    StarCompleted::from(completed)
}
