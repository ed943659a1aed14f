// The ends of the ranges of a key's parts.
ghost use Rattle.std.specs.Prelude.{◌≡◌};
ghost use Rattle.numeric.specs.Ratios.{Ratio};
ghost use Rattle.numeric.specs.KeyPart.{part_of, low_of, high_of};
ghost use Rattle.numeric.specs.KeyPart.{NarrowTolerance};
ghost use Rattle.pattern_keys.specs.TwoValues.{two_at_most};

// A tolerance of the ratios for a number of bins, so small that the range of a part has at most four values.
#[derive(Clone, Copy)]
pub struct KeyTolerance {
    pub e: f32,
    pub bins: u32,
    ghost narrow: { NarrowTolerance e bins },
}

impl KeyTolerance {
    // The lower end of a part's range: the image's part k or the one before it, unless the range goes further down. Cutting costs more than a
    // comparison.
    pub fn low(self, r: f32, k: u32) -> u32
        requires { Ratio r × (k ≡ part_of r self.bins) }
        ensures { result ≡ low_of r self.e self.bins }
    {
        let x = (r - self.e) * self.bins as f32;
        let n = (k + (k as f32 <= x) as u32).saturating_sub(1);
        if n as f32 <= x {
            return n;
        }
        if n == 0 {
            return 0;
        }
        numeric::truncate::truncate(numeric::min_max::larger(x, 0.0))
    }

    // The upper end of a part's range: the image's part k or the one after it, unless the range goes further up.
    pub fn high(self, r: f32, k: u32) -> u32
        requires { Ratio r × (k ≡ part_of r self.bins) }
        ensures { result ≡ high_of r self.e self.bins }
    {
        let b = self.bins as f32;
        let x = numeric::min_max::smaller((r + self.e) * b, b);
        let n = k + ((k + 1) as f32 <= x) as u32;
        if (n + 1) as f32 <= x {
            return numeric::truncate::truncate(x);
        }
        n
    }
}

// Tells whether the range of every part has at most two values.
pub fn at_most_two(lo: [u32; 5], hi: [u32; 5]) -> bool
    ensures { result ≡ two_at_most lo hi }
{
    lo.iter()
        .zip(hi.iter())
        .all(|(a, b)| *b as u64 <= *a as u64 + 1)
}
