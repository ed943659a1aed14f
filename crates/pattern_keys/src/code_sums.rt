// The hash of each of the 32 codes. It is the hash of the lower ends, with bins^i added for each part i that is one above its lower end.
ghost use Rattle.pattern.specs.Key.{Parts};
ghost use Rattle.pattern_keys.specs.TwoValuesSteps.{Doubled, Room, Sums};

// Copies the first n sums behind themselves, with v added to each copy.
fn double(sums: &mut [u64; 32], n: usize, v: u64)
    requires { Room sums.old n v }
    ensures { Doubled sums.old sums.new n v }
{
    for i in 0..n {
        sums[n + i] = sums[i] + v;
    }
}

// Writes to `sums` the hashes of the 32 codes, for ranges with the lower ends lo.
// Kept: five calls by size, since each adds another power of bins, and a loop would need a list of them.
pub fn fill(lo: [u32; 5], bins: u32, sums: &mut [u64; 32])
    requires { Parts lo bins }
    ensures { Sums sums.new lo bins 32 9223372036854775808 }
{
    let b = bins as u64;
    let square = b * b;
    let h = pattern::key::compute_pattern_key_hash(lo, bins);
    sums[0] = h;
    double(sums, 1, square * square);
    double(sums, 2, square * b);
    double(sums, 4, square);
    double(sums, 8, b);
    double(sums, 16, 1);
}
