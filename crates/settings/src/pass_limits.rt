// The limits that question 5 sets for each number of a pass.
ghost use Rattle.std.specs.Prelude.{◌≡◌};
ghost use Rattle.settings.specs.PassLimits.{field_fits, scale_fits, cosine_fits};

// Whether a field of view is above 0 and below f32 pi.
pub fn field_fits(x: f32) -> bool
    ensures { result ≡ field_fits x }
{
    0.0 < x && x < 3.1415927
}

// Whether a pixel scale is above 0 and at most 16.
pub fn scale_fits(x: f32) -> bool
    ensures { result ≡ scale_fits x }
{
    0.0 < x && x <= 16.0
}

// Whether a cosine is from -1 to 1.
pub fn cosine_fits(x: f32) -> bool
    ensures { result ≡ cosine_fits x }
{
    -1.0 <= x && x <= 1.0
}
