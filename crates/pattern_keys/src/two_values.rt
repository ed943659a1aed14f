// The hashes of the keys in ranges of at most two values a part, in order, found by five-bit codes.

ghost use Rattle.pattern_keys.specs.Keys.{keys_of};
ghost use Rattle.pattern_keys.specs.EnumerateSteps.{Hashed};
ghost use Rattle.pattern_keys.specs.Codes.{Pairs};

// Writes to `out` the hashes of the keys in ranges of at most two values a part, in the keys' order, and returns their count.
// Kept: the parts of a KeyRange apart, since `Pairs` asks less of the upper ends than a KeyRange does.
pub fn two_values(
    c: [u32; 5],
    lo: [u32; 5],
    hi: [u32; 5],
    bins: u32,
    out: &mut [u64; 1024],
) -> usize
    requires { Pairs c lo hi bins }
    ensures { Hashed out.new result (keys_of c lo hi) bins }
{
    let mut sums = [0; 32];
    crate::code_sums::fill(lo, bins, &mut sums);
    let centre = crate::codes::code_of(c, lo, hi, bins);
    let valid = crate::valid_codes::codes_in(lo, hi);
    crate::codes::listed(centre, valid, &sums, out)
}
