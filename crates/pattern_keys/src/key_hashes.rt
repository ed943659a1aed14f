// The hashes of a pattern's keys, in order. They are found by five-bit codes where no part of the key has more than two values, and else by
// the general way.

ghost use Rattle.numeric.specs.Ratios.{Ratios};
ghost use Rattle.pattern_keys.specs.KeyBounds.{keys_for};
ghost use Rattle.numeric.specs.KeyPart.{NarrowTolerance};
ghost use Rattle.pattern_keys.specs.EnumerateSteps.{Hashed};

use crate::key_range::KeyRange;

// Writes to `out` the hashes of the keys of five ratios, in the keys' order, and returns their count. What `out` holds after them is left open.
// Kept: fills an array and returns a count, since there is no heap.
pub fn key_hashes(r: [f32; 5], e: f32, bins: u32, out: &mut [u64; 1024]) -> usize
    requires { Ratios r × NarrowTolerance e bins }
    ensures { Hashed out.new result (keys_for r e bins) bins }
{
    let ranges = KeyRange::new(r, e, bins);
    if ranges.at_most_two() {
        return crate::two_values::two_values(ranges.centre, ranges.lo, ranges.hi, ranges.bins, out);
    }
    crate::enumerate::enumerate_key_range(&ranges, out)
}
