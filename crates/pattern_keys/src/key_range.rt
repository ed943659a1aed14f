// The ranges of a key's parts around the image key.
ghost use Rattle.std.specs.Prelude.{◌≡◌};
ghost use Rattle.numeric.specs.Ratios.{Ratios};
ghost use Rattle.numeric.specs.KeyPart.{NarrowTolerance};
ghost use Rattle.pattern.specs.Key.{key_of, Parts};
ghost use Rattle.pattern_keys.specs.DistanceSortSteps.{Narrow};
ghost use Rattle.pattern_keys.specs.KeyBounds.{lower_of, upper_of};
ghost use Rattle.pattern_keys.specs.KeyRange.{Inside};
ghost use Rattle.pattern_keys.specs.TwoValues.{two_at_most};

use crate::key_bounds::KeyTolerance;

// The image key, with the lower and the upper end of the range of each part, for a number of bins. The image key is one of the keys in the
// ranges, no end is above bins, and each range has at most four values.
#[derive(Clone, Copy)]
pub struct KeyRange {
    pub centre: [u32; 5],
    pub lo: [u32; 5],
    pub hi: [u32; 5],
    pub bins: u32,
    ghost parts: { Parts hi bins },
    ghost narrow: { Narrow lo hi },
    ghost inside: { Inside centre lo hi },
}

impl KeyRange {
    // Returns the ranges for five ratios and the tolerance e.
    pub fn new(r: [f32; 5], e: f32, bins: u32) -> KeyRange
        requires { Ratios r × NarrowTolerance e bins }
        ensures { (result.centre ≡ key_of r bins) × (result.lo ≡ lower_of r e bins) × (result.hi ≡ upper_of r e bins) × (result.bins ≡ bins) }
    {
        let tolerance = KeyTolerance { e, bins };
        let centre = pattern::key::compute_pattern_key(r, bins);
        let mut lo = [0; 5];
        let mut hi = [0; 5];
        for i in 0..5 {
            lo[i] = tolerance.low(r[i], centre[i]);
            hi[i] = tolerance.high(r[i], centre[i]);
        }
        KeyRange {
            centre,
            lo,
            hi,
            bins,
        }
    }

    // Tells whether the range of every part has at most two values.
    pub fn at_most_two(&self) -> bool
        ensures { result ≡ two_at_most self.now.lo self.now.hi }
    {
        crate::key_bounds::at_most_two(self.lo, self.hi)
    }
}
