// The leaves as C functions, so that the programs in oracle/speed/leaves can measure them.
ghost use Rattle.std.specs.Prelude.{◌≡◌, ◌*◌, ◌%◌, ◌^◌};
ghost use Rattle.std.specs.Float.Ieee.{to_unsigned};
ghost use Rattle.square_root.specs.Root.{root_of};
ghost use Rattle.arc.specs.Arc.{arc_of};
ghost use Rattle.numeric.specs.Magnitude.{magnitude_of};

// Returns the square root of x.
#[unsafe(no_mangle)]
pub extern "C" fn sqrt_f32(x: f32) -> f32
    ensures { result ≡ root_of x }
{
    square_root::sqrt(x)
}

// Returns the arc of h.
#[unsafe(no_mangle)]
pub extern "C" fn arc_f32(h: f32) -> f32
    ensures { result ≡ arc_of h }
{
    arc::arc(h)
}

// Returns x without its sign.
#[unsafe(no_mangle)]
pub extern "C" fn magnitude_f32(x: f32) -> f32
    ensures { result ≡ magnitude_of x }
{
    numeric::magnitude::magnitude(x)
}

// Returns x cut to a whole number.
#[unsafe(no_mangle)]
pub extern "C" fn truncate_f32(x: f32) -> u32
    ensures { result ≡ to_unsigned 32 x }
{
    numeric::truncate::truncate(x)
}

// Returns the product of a and b modulo 2^64.
#[unsafe(no_mangle)]
pub extern "C" fn wrapping_mul_u64(a: u64, b: u64) -> u64
    ensures { result ≡ (a * b) % 2 ^ 64 }
{
    numeric::wrapping::wrapping_mul(a, b)
}
