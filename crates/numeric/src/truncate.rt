// Cutting an f32 to a whole number. The result is defined for every input: NaN, the infinities and -0 included.
ghost use Rattle.std.specs.Prelude.{◌≡◌, false, T, pos};
ghost use Rattle.std.specs.Float.{fin};
ghost use Rattle.std.specs.Float.Ieee.{to_unsigned, le};
ghost use Rattle.numeric.specs.Value.{zero32};

// Cuts an x from 0 to 4096 to a whole number: the sum x + 2^23 is rounded, and where that less 2^23 is above x, it is 1 too large.
// Kept: `std::num::saturating_f32_to_u32` alone takes 38 instructions for such an x, and this takes 15 with the tests before it.
fn truncate_small(x: f32) -> u32
    requires { T (le zero32 x) × T (le x (fin false 1 (pos 12))) }
    ensures { result ≡ to_unsigned 32 x }
{
    let near = x + 8388608.0 - 8388608.0;
    let n = near as u32;
    if x < near {
        return n - 1;
    }
    n
}

// Cuts x to a whole number, like the source's `as u32`: toward zero, with 0 for a NaN and for an x below 0,
// and the largest u32 for an x from 2^32 on.
pub fn truncate(x: f32) -> u32
    ensures { result ≡ to_unsigned 32 x }
{
    if 0.0 <= x && x <= 4096.0 {
        return truncate_small(x);
    }
    std::num::saturating_f32_to_u32(x)
}
