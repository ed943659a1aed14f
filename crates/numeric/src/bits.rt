// Conversions between an f32 and its bit pattern, the patterns of NaNs included.
ghost use Rattle.std.specs.Prelude.{◌≡◌, from_bits, to_bits};
ghost use Rattle.std.specs.Float.{binary32};

// Returns the f32 that has the bit pattern n. Every pattern of a NaN gives the one NaN of the definitions.
pub fn from_bits(n: u32) -> f32
    ensures { result ≡ from_bits binary32 n }
{
    std::num::f32_from_bits_with_nan(n)
}

// Returns the bit pattern of x. For a NaN it returns 7FC00000 (hexadecimal).
pub fn to_bits(x: f32) -> u32
    ensures { result ≡ to_bits binary32 x }
{
    std::num::f32_to_bits_with_nan(x)
}
