// The larger and the smaller of two f32, each chosen by one comparison. The laws of the order of f32 are in proofs/.
// Kept: `f32::max` and `f32::min` give the other value beside a NaN and either of two zeros, and callers rely on the definitions here, which say more.
ghost use Rattle.std.specs.Prelude.{◌≡◌};
ghost use Rattle.numeric.specs.MinMax.{larger, smaller};

// Returns y if x is below y, else x. So it returns x if either of them is a NaN.
pub fn larger(x: f32, y: f32) -> f32
    ensures { result ≡ larger x y }
{
    if x < y { y } else { x }
}

// Returns y if y is below x, else x. So it returns x if either of them is a NaN.
pub fn smaller(x: f32, y: f32) -> f32
    ensures { result ≡ smaller x y }
{
    if y < x { y } else { x }
}
