// The combinations of a pass: four positions in the kept list, strictly rising, listed by sum and within a sum lexicographically.
// The next combination is worked out from the present one, in place of the source's heap and seen set.
#![tactic(auto)]

ghost use Rattle.std.specs.Prelude.{◌≡◌, ◌-◌, ◌≤◌, max};
ghost use Rattle.combinations.specs.Combinations.{Rising};
ghost use Rattle.combinations.specs.Successor.{with_a, with_b, with_c, from_sum, from_a, from_b, first_combination, next_combination};

// Four positions in the kept list of a pass.
#[derive(Clone, Copy, PartialEq, Eq)]
pub struct Combination {
    pub a: u32,
    pub b: u32,
    pub c: u32,
    pub d: u32,
}

// The combinations of n kept spots whose positions have the sum s.
#[derive(Clone, Copy)]
struct OfSum {
    n: u32,
    s: u32,
    ghost few: { n ≤ 64 },
    ghost small: { s ≤ 256 },
}

impl OfSum {
    // Of those that begin with a and b, returns the first whose third position is at least c.
    fn with_c(self, a: u32, b: u32, c: u32) -> Combination
        requires { (a ≤ 512) × (b ≤ 512) × (c ≤ 512) }
        ensures { result ≡ with_c self.n self.s a b c }
    {
        let x = c.max((self.s + 1).saturating_sub(a + b + self.n));
        Combination {
            a: a,
            b: b,
            c: x,
            d: self.s.saturating_sub(a + b + x),
        }
    }

    // Of those that begin with a, returns the first whose second position is at least b.
    fn with_b(self, a: u32, b: u32) -> Combination
        requires { (a ≤ 500) × (b ≤ 500) }
        ensures { result ≡ with_b self.n self.s a b }
    {
        let x = b.max((self.s + 3).saturating_sub(a + 2 * self.n));
        self.with_c(a, x, x + 1)
    }

    // Returns the first whose first position is at least a.
    fn with_a(self, a: u32) -> Combination
        requires { a ≤ 400 }
        ensures { result ≡ with_a self.n self.s a }
    {
        let x = a.max((self.s + 6).saturating_sub(3 * self.n));
        self.with_b(x, x + 1)
    }

    // Returns the first combination of the kept spots whose sum is s or more.
    fn from_sum(self) -> Option<Combination>
        ensures { result ≡ from_sum self.n self.s }
    {
        let t = self.s.max(6);
        if t + 10 <= 4 * self.n {
            Some(OfSum { n: self.n, s: t }.with_a(0))
        } else {
            None
        }
    }

    // Returns the first whose first position is at least a, or, where there is none, the first combination with a larger sum.
    fn from_a(self, a: u32) -> Option<Combination>
        requires { (self.s ≤ 255) × (a ≤ 65) }
        ensures { result ≡ from_a self.n self.s a }
    {
        let x = a.max((self.s + 6).saturating_sub(3 * self.n));
        if 4 * x + 6 <= self.s {
            return Some(self.with_a(a));
        }
        let larger = OfSum {
            n: self.n,
            s: self.s + 1,
        };
        larger.from_sum()
    }

    // Returns the first that begins with a and whose second position is at least b, or, where there is none, what `from_a` gives for a + 1.
    fn from_b(self, a: u32, b: u32) -> Option<Combination>
        requires { (self.s ≤ 255) × (a ≤ 64) × (b ≤ 65) }
        ensures { result ≡ from_b self.n self.s a b }
    {
        let x = b.max((self.s + 3).saturating_sub(a + 2 * self.n));
        if a + 3 * x + 3 <= self.s {
            Some(self.with_b(a, b))
        } else {
            self.from_a(a + 1)
        }
    }
}

// Returns the first combination of n kept spots. There is none where n is below 4.
// Kept: that at most 64 are kept is a clause, here, in search_cache, search_step and thinning, since the number comes alone.
pub fn first_combination(n: u32) -> Option<Combination>
    requires { n ≤ 64 }
    ensures { result ≡ first_combination n }
{
    OfSum { n, s: 0 }.from_sum()
}

impl Combination {
    // Returns the combination after this one, of a kept list of this length. Most often the third position goes up by one and the fourth down by one.
    pub fn next(self, kept: u32) -> Option<Combination>
        requires { (kept ≤ 64) × Rising kept self }
        ensures { result ≡ next_combination kept self }
    {
        if self.c + 2 < self.d {
            return Some(Combination {
                a: self.a,
                b: self.b,
                c: self.c + 1,
                d: self.d - 1,
            });
        }
        let same = OfSum {
            n: kept,
            s: self.a + self.b + self.c + self.d,
        };
        same.from_b(self.a, self.b + 1)
    }
}
