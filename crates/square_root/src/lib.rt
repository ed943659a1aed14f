// The square root of an f32, rounded to the nearest f32. It is worked out in whole numbers; a guess in f64 saves most of the time and is tested.
#![tactic(auto)]

ghost use Rattle.std.specs.Prelude.{◌≡◌, ◌+◌, ◌*◌, ◌≤◌, ◌<◌, T};
ghost use Rattle.std.specs.Float.{binary32};
ghost use Rattle.std.specs.Float.Ieee.{of_bits};
ghost use Rattle.std.specs.Float.Ieee.Positive.{positive};
ghost use Rattle.square_root.specs.Root.{root_of};
ghost use Rattle.square_root.specs.Steps.{Nearest, Pattern};

// Returns the whole number nearest to the root of n, from the root rounded down. It serves where the guess fails its test.
fn search(n: u64) -> u64
    requires { (70368744177664 ≤ n) × (n ≤ 281474959933440) }
    ensures { Nearest n result }
{
    let q = n.isqrt();
    if n <= q * q + q { q } else { q + 1 }
}

// Returns about the root of t, from a guess y at 1 / √t: one step of Newton's method and then two terms of a series.
// 0.703952253 and 2.38924456 are the guess's own constants, chosen for a small error. Nothing is ensured of the result.
fn polish(t: f64, y: f64) -> f64 {
    let z = 0.703952253 * y * (2.38924456 - t * y * y);
    let s = t * z;
    let d = 1.0 - s * z;
    s + s * d * (0.5 + 0.375 * d)
}

// Returns the whole number nearest to s, modulo 2^24, for an s from 0 to below 2^52, and 0 for a larger s and for a NaN.
// For an s below 0 only the range is known.
fn digits(s: f64) -> u64
    ensures { result < 16777216 }
{
    let h = s + 4503599627370496.0;
    if h < 9007199254740992.0 {
        f64::to_bits(h) % 16777216
    } else {
        0
    }
}

// Returns a guess at the root of m * 2^23 or, where p is 1, of m * 2^24. With i for the bit pattern of an f64 t, the pattern
// 0x5fe3ffff20000000 - i / 2 is about that of 1 / √t; this constant is chosen like those of `polish`. Only the result's range is ensured.
fn guess(m: u64, p: u64) -> u64
    requires { (8388608 ≤ m) × (m < 16777216) × (p < 2) }
    ensures { result < 16777216 }
{
    let i = (p + 1023) * 4503599627370496 + (m - 8388608) * 536870912;
    let t = f64::from_bits(i);
    let y = f64::from_bits(0x5fe3ffff20000000 - i / 2);
    digits(polish(t, y) * 8388608.0)
}

// Returns the whole number nearest to the root of n: the guess q where it passes the test, else what `search` finds.
fn nearest(n: u64, q: u64) -> u64
    requires { (70368744177664 ≤ n) × (n ≤ 281474959933440) × (q < 16777216) }
    ensures { Nearest n result }
{
    let k = q * q;
    if k < n + q && n <= k + q {
        q
    } else {
        search(n)
    }
}

// Returns the bit pattern of the root of m * 2^(e - 173), for an m of 24 binary digits.
fn pattern(m: u64, e: u64) -> u32
    requires { (8388608 ≤ m) × (m < 16777216) × (e < 278) }
    ensures { Pattern m e result }
{
    let p = e % 2;
    let n = m * 8388608 * (p + 1);
    let q = nearest(n, guess(m, p));
    ((e / 2 + 51) * 8388608 + q) as u32
}

// Returns the bit pattern of the root, for the pattern b of a subnormal f32: one of fewer than 24 binary digits.
fn subnormal(b: u32) -> u32
    requires { (0 < b) × (b < 8388608) }
    ensures { (of_bits binary32 result ≡ root_of (of_bits binary32 b)) × (result < 2139095040) }
{
    let z = u32::leading_zeros(b);
    pattern((b << (z - 8)) as u64, (32 - z) as u64)
}

// Returns the bit pattern of the root, for the pattern b of a normal f32: one of 24 binary digits, the leading one not stored.
fn normal(b: u32) -> u32
    requires { (8388608 ≤ b) × (b < 2139095040) }
    ensures { (of_bits binary32 result ≡ root_of (of_bits binary32 b)) × (result < 2139095040) }
{
    pattern((b % 8388608 + 8388608) as u64, (b / 8388608 + 23) as u64)
}

// Returns the root of a finite x above 0.
fn above_zero(x: f32) -> f32
    requires { T (positive x) }
    ensures { result ≡ root_of x }
{
    let b = f32::to_bits(x);
    if b < 8388608 {
        return f32::from_bits(subnormal(b));
    }
    f32::from_bits(normal(b))
}

// Returns the square root of x: a NaN for a NaN and for an x below zero, and x itself for either zero and for the infinity.
pub fn sqrt(x: f32) -> f32
    ensures { result ≡ root_of x }
{
    if 0.0 < x {
        if x < 1.0 / 0.0 {
            return above_zero(x);
        }
        return x;
    }
    if x == 0.0 {
        return x;
    }
    0.0 / 0.0
}
