// The magnitude of an f32, and whether an f32 is finite. Both are defined for every input: NaN, the infinities and -0 included.
ghost use Rattle.std.specs.Prelude.{◌≡◌};
ghost use Rattle.std.specs.Float.Ieee.Scale.{finite};
ghost use Rattle.numeric.specs.Magnitude.{magnitude_of};

// Returns x without its sign: +0 for either zero, and a NaN for a NaN.
pub fn magnitude(x: f32) -> f32
    ensures { result ≡ magnitude_of x }
{
    x.abs()
}

// Tells whether x is neither a NaN nor an infinity.
pub fn is_finite(x: f32) -> bool
    ensures { result ≡ finite x }
{
    x.is_finite()
}
