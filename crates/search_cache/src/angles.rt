// The directions of a pass's kept spots and the angle of each two of them.
ghost use Rattle.std.specs.Prelude.{◌≡◌, true, false, [], ℕ, suc, ◌≤◌, ◌<◌, get_or};
ghost use Rattle.std.specs.Float.Ieee.{lt};
ghost use Rattle.std.specs.Float.{nan};
ghost use Rattle.numeric.specs.Value.{zero32};
ghost use Rattle.pattern.specs.Edges.{angle, angles};
ghost use Rattle.combinations.specs.Combinations.{Rising};
ghost use Rattle.search_cache.specs.AngleArray.{row_at, direction_at, three_of, angle_in, six_in, four_at, known_or, angles_beside, AnglesCached, DirectionsStored, SameDirections};

use combinations::Combination;

// 64 directions of three numbers each, then one angle for each two of 64 positions in the kept list. An angle is -1 until it is first worked out.
// Kept: one array, and -1 for an angle that is not worked out, which one comparison tells (DECISIONS 43).
#[derive(Clone, Copy)]
pub struct Geometry {
    pub numbers: [f32; 2208],
}

// Returns the index at which the angles of position j with the positions before it begin: after 192 numbers of directions and the angles of the
// positions before j.
fn row(j: usize) -> usize
    requires { j ≤ 64 }
    ensures { result ≡ row_at j }
{
    192 + (j * j - j) / 2
}

// Returns the angle between two directions: `known`, or, where that is below 0, the angle worked out from the directions.
fn known_or(known: f32, a: [f32; 3], b: [f32; 3]) -> f32
    ensures { result ≡ known_or known a b }
{
    if known < 0.0 {
        return pattern::edges::angle(a, b);
    }
    known
}

// Returns the angles of the six pairs of four directions, in the source's order; an angle that is known, which is one not below 0, is taken as
// it is.
fn edge_angles(v: [[f32; 3]; 4], known: [f32; 6]) -> [f32; 6]
    ensures { result ≡ angles_beside v known }
{
    let a = v[0];
    let b = v[1];
    let c = v[2];
    let d = v[3];
    let ab = known_or(known[0], a, b);
    let ac = known_or(known[1], a, c);
    let ad = known_or(known[2], a, d);
    let bc = known_or(known[3], b, c);
    let bd = known_or(known[4], b, d);
    let cd = known_or(known[5], c, d);
    [ab, ac, ad, bc, bd, cd]
}

// Returns whether six angles that were looked up are all worked out, which is to say not below 0.
fn all_known(v: [f32; 6]) -> bool
    ensures known { result ≡ true → (k : ℕ) → k < 6 → lt (get_or v k nan) zero32 ≡ false }
    ensures unknown { result ≡ false → (k : ℕ) × ((k < 6) × (lt (get_or v k nan) zero32 ≡ true)) }
{
    !v.iter().any(|x| *x < 0.0)
}

impl Geometry {
    // Returns the direction at position k.
    fn direction_at(&self, k: usize) -> [f32; 3]
        requires { k < 64 }
        ensures { result ≡ direction_at self.now.numbers k }
    {
        let i = 3 * k;
        [self.numbers[i], self.numbers[i + 1], self.numbers[i + 2]]
    }

    // Returns the directions at the four positions of a combination.
    // Kept: four calls by name, as a map has a clause in its closure and a longer proof; that q rises is a clause, as one of a saved state need not.
    fn four_at(&self, q: Combination) -> [[f32; 3]; 4]
        requires { Rising 64 q }
        ensures { result ≡ four_at self.now.numbers q }
    {
        let a = self.direction_at(q.a as usize);
        let b = self.direction_at(q.b as usize);
        let c = self.direction_at(q.c as usize);
        let d = self.direction_at(q.d as usize);
        [a, b, c, d]
    }

    // Stores w, the angle of positions i and j, in the array.
    fn keep(&mut self, i: u32, j: u32, w: f32)
        requires { (i < j) × (j < 64) × (w ≡ angle (direction_at self.old.numbers i) (direction_at self.old.numbers j)) }
        ensures { SameDirections self.old.numbers self.new.numbers }
    {
        let at = row(j as usize) + i as usize;
        self.numbers[at] = w;
    }

    // Returns what the array has for positions i and j: their angle, or -1.
    fn cached_at(&self, i: u32, j: u32) -> f32
        requires { (i < j) × (j < 64) }
        ensures { result ≡ angle_in self.now.numbers i j }
    {
        self.numbers[row(j as usize) + i as usize]
    }

    // Returns what the array has for the six pairs of four positions, in the source's order.
    // Kept: six calls by name, here and where angles are worked out and stored, since a map needs a list of the six pairs and a closure with clauses.
    fn cached_six(&self, q: Combination) -> [f32; 6]
        requires { Rising 64 q }
        ensures { result ≡ six_in self.now.numbers q }
    {
        let ab = self.cached_at(q.a, q.b);
        let ac = self.cached_at(q.a, q.c);
        let ad = self.cached_at(q.a, q.d);
        let bc = self.cached_at(q.b, q.c);
        let bd = self.cached_at(q.b, q.d);
        let cd = self.cached_at(q.c, q.d);
        [ab, ac, ad, bc, bd, cd]
    }

    // The six angles, those not cached yet worked out from the four directions, and stored.
    fn compute_six(&mut self, q: Combination, kept: [f32; 6]) -> [f32; 6]
        requires { Rising 64 q × AnglesCached (suc q.d) self.old.numbers × (kept ≡ six_in self.old.numbers q) }
        ensures six { result ≡ angles (four_at self.old.numbers q) }
        ensures directions { SameDirections self.old.numbers self.new.numbers }
    {
        let v = self.four_at(q);
        let six = edge_angles(v, kept);
        self.keep(q.a, q.b, six[0]);
        self.keep(q.a, q.c, six[1]);
        self.keep(q.a, q.d, six[2]);
        self.keep(q.b, q.c, six[3]);
        self.keep(q.b, q.d, six[4]);
        self.keep(q.c, q.d, six[5]);
        six
    }

    // Returns the angles of the six pairs of four positions, in the source's order, and stores those that the array did not have.
    // Kept: that the angles are cached is a clause, here and in two other functions, since it is said of the positions up to q's last alone.
    pub fn six_angles(&mut self, q: Combination) -> [f32; 6]
        requires { Rising 64 q × AnglesCached (suc q.d) self.old.numbers }
        ensures six { result ≡ angles (four_at self.old.numbers q) }
        ensures directions { SameDirections self.old.numbers self.new.numbers }
    {
        let kept = self.cached_six(q);
        if all_known(kept) {
            return kept;
        }
        self.compute_six(q, kept)
    }

    // Writes the first n directions to the array.
    fn put_directions(&mut self, dirs: &[[f32; 3]; 64], n: usize)
        requires { n ≤ 64 }
        ensures { (k : ℕ) → k < n → direction_at self.new.numbers k ≡ three_of (get_or dirs.now k []) }
    {
        for k in 0..n {
            let v = dirs[k];
            let i = 3 * k;
            self.numbers[i] = v[0];
            self.numbers[i + 1] = v[1];
            self.numbers[i + 2] = v[2];
        }
    }

    // Marks the angles of the first n positions as not worked out.
    fn clear_angles(&mut self, n: usize)
        requires { n ≤ 64 }
        ensures { AnglesCached n self.new.numbers × ((k : ℕ) → k < 64 → direction_at self.new.numbers k ≡ direction_at self.old.numbers k) }
    {
        let end = row(n);
        self.numbers[192..end].fill(-1.0);
    }

    // Loads the array for a pass that keeps n spots with these directions: writes the directions and clears the angles.
    pub fn load(&mut self, dirs: &[[f32; 3]; 64], n: usize)
        requires { n ≤ 64 }
        ensures { DirectionsStored dirs.now n self.new.numbers }
    {
        self.put_directions(dirs, n);
        self.clear_angles(n);
    }
}
