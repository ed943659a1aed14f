// The hashes of the keys in ranges of at most four values a part, in order. This is the general way, for ranges that two_values does not cover.

ghost use Rattle.pattern_keys.specs.Keys.{keys_of};
ghost use Rattle.pattern_keys.specs.EnumerateSteps.{Hashed};

use crate::distance_sort::NearKeys;
use crate::key_range::KeyRange;
use crate::nested_loops::Measured;

// Writes to `out` the hashes of the keys in the ranges, by squared distance to the image key, then lexicographically. Returns their count.
// What `out` holds after them is left open.
// Kept: fills an array and returns a count, since there is no heap.
pub fn enumerate_key_range(ranges: &KeyRange, out: &mut [u64; 1024]) -> usize
    ensures { Hashed out.new result (keys_of ranges.now.centre ranges.now.lo ranges.now.hi) ranges.now.bins }
{
    let mut found = Measured {
        hashes: [0; 1024],
        dist: [0; 1024],
        count: 0,
    };
    crate::nested_loops::add_keys([0; 5], 5, ranges, &mut found);
    NearKeys { keys: &found }.sort(out)
}
