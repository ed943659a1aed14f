// The keys in the ranges in lexicographic order, by nested loops over their parts. The hash and the squared distance of each key are stored,
// the key itself is not.
ghost use Rattle.std.specs.Prelude.{◌≡◌, ◌+◌, ◌<◌, ◌≤◌, length, set};
ghost use Rattle.pattern.specs.Key.{Parts};
ghost use Rattle.pattern_keys.specs.Keys.{squared_difference, squared_distance};
ghost use Rattle.pattern_keys.specs.NestedLoops.{with_last, Enumerated};

use crate::key_range::KeyRange;

// Returns the square of the difference of two parts.
fn squared_difference(x: u32, y: u32) -> u64
    requires { (x ≤ 4096) × (y ≤ 4096) }
    ensures { (result ≡ squared_difference x y) × (result ≤ 16777216) }
{
    let d = x.abs_diff(y) as u64;
    d * d
}

// Returns the squared distance of two keys.
// Kept: the sum written out, since a sum over a zip needs a clause of its own for the bound of each square.
fn squared_distance(c: [u32; 5], k: [u32; 5], bins: u32) -> u64
    requires { Parts c bins × Parts k bins }
    ensures { (result ≡ squared_distance c k) × (result ≤ 83886080) }
{
    squared_difference(c[0], k[0])
        + squared_difference(c[1], k[1])
        + squared_difference(c[2], k[2])
        + squared_difference(c[3], k[3])
        + squared_difference(c[4], k[4])
}

// The hash and the squared distance of each key so far, with room for the most that there can be.
// Kept: two arrays and a count, since there is no heap.
#[derive(Drop)]
pub struct Measured {
    pub hashes: [u64; 1024],
    pub dist: [u64; 1024],
    pub count: usize,
}

impl Measured {
    // Adds a key by its hash and its squared distance.
    fn push(&mut self, hash: u64, distance: u64)
        requires { self.old.count < 1024 }
        ensures { (self.new.hashes ≡ set self.old.hashes self.old.count hash) × (self.new.dist ≡ set self.old.dist self.old.count distance) × (self.new.count ≡ self.old.count + 1) }
    {
        let at = self.count;
        self.hashes[at] = hash;
        self.dist[at] = distance;
        self.count = at + 1;
    }
}

// Goes over the values of the last part of k. Adds each key to `found`.
// What the other parts give to the hash and to the distance is worked out once.
fn add_last(k: [u32; 5], ranges: &KeyRange, found: &mut Measured)
    requires { Parts k ranges.now.bins × (found.old.count + length (with_last 1 ranges.now.lo ranges.now.hi k) ≤ 1024) }
    ensures { Enumerated ranges.now.centre ranges.now.bins found.old.hashes found.old.dist found.new.hashes found.new.dist found.old.count found.new.count (with_last 1 ranges.now.lo ranges.now.hi k) }
{
    let bins = ranges.bins as u64;
    let square = bins * bins;
    let weight = square * square;
    let middle = ranges.centre[4];
    let mut x = k;
    x[4] = 0;
    let hash = pattern::key::compute_pattern_key_hash(x, ranges.bins);
    x[4] = middle;
    let distance = squared_distance(ranges.centre, x, ranges.bins);
    for v in ranges.lo[4].max(k[3])..ranges.hi[4] + 1 {
        found.push(
            hash + v as u64 * weight,
            distance + squared_difference(middle, v),
        );
    }
}

// Goes over the values of the fourth part of k, and for each over those of the last part. Adds each key to `found`.
// Kept: a function for each part, here and below, and none that calls itself: that one took 1.4 times as long for a call of one read
// (BENCHMARKS), and hosts read the stack of a call off a listing.
fn add_last_two(k: [u32; 5], ranges: &KeyRange, found: &mut Measured)
    requires { Parts k ranges.now.bins × (found.old.count + length (with_last 2 ranges.now.lo ranges.now.hi k) ≤ 1024) }
    ensures { Enumerated ranges.now.centre ranges.now.bins found.old.hashes found.old.dist found.new.hashes found.new.dist found.old.count found.new.count (with_last 2 ranges.now.lo ranges.now.hi k) }
{
    for v in ranges.lo[3].max(k[2])..ranges.hi[3] + 1 {
        let mut x = k;
        x[3] = v;
        add_last(x, ranges, found);
    }
}

// Goes over the values of the third part of k, and for each over those of the two parts after it. Adds each key to `found`.
fn add_last_three(k: [u32; 5], ranges: &KeyRange, found: &mut Measured)
    requires { Parts k ranges.now.bins × (found.old.count + length (with_last 3 ranges.now.lo ranges.now.hi k) ≤ 1024) }
    ensures { Enumerated ranges.now.centre ranges.now.bins found.old.hashes found.old.dist found.new.hashes found.new.dist found.old.count found.new.count (with_last 3 ranges.now.lo ranges.now.hi k) }
{
    for v in ranges.lo[2].max(k[1])..ranges.hi[2] + 1 {
        let mut x = k;
        x[2] = v;
        add_last_two(x, ranges, found);
    }
}

// Goes over the values of the second part of k, and for each over those of the three parts after it. Adds each key to `found`.
fn add_last_four(k: [u32; 5], ranges: &KeyRange, found: &mut Measured)
    requires { Parts k ranges.now.bins × (found.old.count + length (with_last 4 ranges.now.lo ranges.now.hi k) ≤ 1024) }
    ensures { Enumerated ranges.now.centre ranges.now.bins found.old.hashes found.old.dist found.new.hashes found.new.dist found.old.count found.new.count (with_last 4 ranges.now.lo ranges.now.hi k) }
{
    for v in ranges.lo[1].max(k[0])..ranges.hi[1] + 1 {
        let mut x = k;
        x[1] = v;
        add_last_three(x, ranges, found);
    }
}

// Goes over the values of the first part of k, and for each over those of the four parts after it. Adds each key to `found`.
fn add_all(k: [u32; 5], ranges: &KeyRange, found: &mut Measured)
    requires { Parts k ranges.now.bins × (found.old.count + length (with_last 5 ranges.now.lo ranges.now.hi k) ≤ 1024) }
    ensures { Enumerated ranges.now.centre ranges.now.bins found.old.hashes found.old.dist found.new.hashes found.new.dist found.old.count found.new.count (with_last 5 ranges.now.lo ranges.now.hi k) }
{
    for v in ranges.lo[0].max(k[0])..ranges.hi[0] + 1 {
        let mut x = k;
        x[0] = v;
        add_last_four(x, ranges, found);
    }
}

// Goes over the values of the first of the last n parts of k, and for each over those of the parts after it. Adds each key to `found`.
pub fn add_keys(k: [u32; 5], n: usize, ranges: &KeyRange, found: &mut Measured)
    requires { (0 < n) × (n ≤ 5) × Parts k ranges.now.bins × (found.old.count + length (with_last n ranges.now.lo ranges.now.hi k) ≤ 1024) }
    ensures { Enumerated ranges.now.centre ranges.now.bins found.old.hashes found.old.dist found.new.hashes found.new.dist found.old.count found.new.count (with_last n ranges.now.lo ranges.now.hi k) }
{
    match n {
        1 => add_last(k, ranges, found),
        2 => add_last_two(k, ranges, found),
        3 => add_last_three(k, ranges, found),
        4 => add_last_four(k, ranges, found),
        _ => add_all(k, ranges, found),
    }
}
