// The sweep: writes the fields of view to try around an estimate to a lent slice (the source's build_fov_sweep of pattern_search.rs).
#![tactic(auto)]

ghost use Rattle.std.specs.Prelude.{◌≡◌, ◌∷◌, ◌++◌, ◌+◌, ◌≤◌, min, length, take, drop};
ghost use Rattle.fov_sweep.specs.Sweep.{sweep_fits, pair_at, pairs_from, swept_of, later_of};
ghost use Rattle.std.specs.Iterator.{YieldsFirst, item_count};
ghost use Rattle.fov_sweep.specs.OffsetList.{offsets_from, offsets_left};
ghost use Rattle.fov_sweep.specs.Reach.{reach_of};
ghost use Rattle.fov_sweep.specs.Answers.{swept_says, sweeping};

use question::Question;
use settings::tolerance::Tolerance;

// The f32 nearest to pi, bits 40490FDB.
const PI: f32 = 3.1415927;

// Question 12: is the estimate above 0 and below f32 pi, the step finite and above 0, the error finite or absent?
fn sweep_fits(estimate: f32, error: Tolerance, step: f32) -> bool
    ensures { result ≡ sweep_fits estimate error step }
{
    0.0 < estimate
        && estimate < PI
        && numeric::magnitude::is_finite(step)
        && 0.0 < step
        && settings::tolerance::option_fits(error)
}

// Returns how far the sweep goes to either side of the estimate: the error cut to at most pi, or 0 where it is absent or not above 0.
fn reach_of(error: Tolerance) -> f32
    ensures { result ≡ reach_of error }
{
    let Tolerance::Given(x) = error else {
        return 0.0;
    };
    if !(0.0 < x) {
        return 0.0;
    }
    numeric::min_max::smaller(x, PI)
}

// Returns how many values an offset gives: 2, or 1 where estimate − offset is not above 0.
fn pair_count(estimate: f32, offset: f32) -> usize
    ensures { result ≡ length (pair_at estimate offset) }
{
    if 0.0 < estimate - offset {
        return 2;
    }
    1
}

// The offsets of a sweep that are left, from the next one on. At most `left` of them are taken, so that a walk over them ends however small
// the step is.
#[derive(Drop)]
struct SweepOffsets {
    estimate: f32,
    reach: f32,
    step: f32,
    offset: f32,
    left: usize,
}

impl Iterator for SweepOffsets {
    type Item = f32;

    ghost next_gives = { YieldsFirst offsets_left };

    ghost remaining = { item_count offsets_left };

    // The list ends at the first offset out of reach, at the first whose sum with the estimate isn't below pi, and where the next is no larger.
    fn next(&mut self) -> Option<f32> {
        let offset = self.offset;
        if self.left == 0 || !(offset <= self.reach) || !(self.estimate + offset < PI) {
            self.left = 0;
            return None;
        }
        self.offset = offset + self.step;
        self.left = if self.offset <= offset {
            0
        } else {
            self.left - 1
        };
        Some(offset)
    }
}

// Returns the first `most` offsets of a sweep. The first one is the step.
// Kept: three numbers, here and below; they are a struct once the sweep has begun, which `SweepOffsets` is.
fn offsets_of(estimate: f32, reach: f32, step: f32, most: usize) -> SweepOffsets
    ensures { offsets_left result ≡ offsets_from most estimate reach step step }
{
    SweepOffsets {
        estimate,
        reach,
        step,
        offset: step,
        left: most,
    }
}

// Returns how many values the sweep has, where they fit the room; otherwise a count above the room, at which counting stops.
fn count_values(estimate: f32, reach: f32, step: f32, room: usize) -> usize
    requires { room ≤ 0x4000_0000_0000_0000 }
    ensures { min result (room + 1) ≡ min (length (estimate ∷ pairs_from room estimate reach step step)) (room + 1) }
{
    let mut n: usize = 1;
    for offset in offsets_of(estimate, reach, step, room) {
        if room < n {
            return n;
        }
        n += pair_count(estimate, offset);
    }
    n
}

// The values of an offset are written from a place on; the place after them.
fn put_pair(estimate: f32, offset: f32, out: &mut [f32], at: usize) -> usize
    requires { at + length (pair_at estimate offset) ≤ length out.old }
    ensures { (result ≡ at + length (pair_at estimate offset)) × (out.new ≡ take at out.old ++ pair_at estimate offset ++ drop (at + length (pair_at estimate offset)) out.old) }
{
    out[at] = estimate + offset;
    let below = estimate - offset;
    if 0.0 < below {
        out[at + 1] = below;
        return at + 2;
    }
    at + 1
}

// Writes the values of the sweep to `out`, in order, and leaves what stands after them as it is.
fn write_values(estimate: f32, reach: f32, step: f32, out: &mut [f32])
    requires { length (estimate ∷ pairs_from (length out.old) estimate reach step step) ≤ length out.old }
    ensures { out.new ≡ (estimate ∷ pairs_from (length out.old) estimate reach step step) ++ drop (length (estimate ∷ pairs_from (length out.old) estimate reach step step)) out.old }
{
    out[0] = estimate;
    let mut at: usize = 1;
    for offset in offsets_of(estimate, reach, step, out.len()) {
        at = put_pair(estimate, offset, out, at);
    }
}

// The sweep: writes the estimate, then estimate + offset and, if above 0, estimate − offset, for offsets a step apart. It asks questions 12
// and 13 first and returns the count of the values: the list is counted before anything is written, so a refused sweep leaves the slice as it was.
pub fn build_fov_sweep(
    estimate: f32,
    error: Tolerance,
    step: f32,
    out: &mut [f32],
) -> Result<u64, Question>
    ensures swept { (result ≡ swept_of estimate error step (length out.old)) × (out.new ≡ later_of estimate error step out.old) }
    ensures says { swept_says result out.new ≡ sweeping estimate error step (length out.old) }
{
    if !sweep_fits(estimate, error, step) {
        return Err(Question::SweepNumbers);
    }
    let reach = reach_of(error);
    let n = count_values(estimate, reach, step, out.len());
    if n > out.len() {
        return Err(Question::SweepRoom);
    }
    write_values(estimate, reach, step, out);
    Ok(n as u64)
}
