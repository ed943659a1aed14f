// The star slice, with three components for each star. Asks question 7, and question 9 for a star.
ghost use Rattle.std.specs.Prelude.{◌≡◌};
ghost use Rattle.pattern_entry.specs.Stars.{stars_fit, unit, star_valid};
ghost use Rattle.pattern_entry.specs.StarsShortcuts.{every_star};

// The index of a star in the star slice.
#[derive(Clone, Copy)]
pub struct StarIndex(pub u32);

// Asks question 7: "Is the star slice a multiple of 3 long, at most 3·2^20?"
pub fn stars_fit(stars: &[f32]) -> bool
    ensures { result ≡ stars_fit stars.now }
{
    stars.len() % 3 == 0 && stars.len() <= 3145728
}

// Tells whether x is finite and of magnitude at most 1. Both comparisons are false for a NaN.
fn is_unit(x: f32) -> bool
    ensures { result ≡ unit x }
{
    x >= -1.0 && x <= 1.0
}

// Asks question 9 for one star: it is inside the star slice, and its components are finite and of magnitude at most 1.
pub fn star_valid(stars: &[f32], i: StarIndex) -> bool
    ensures { result ≡ star_valid stars.now i.0 }
{
    let n = stars.len() / 3;
    let k = i.0 as usize;
    k < n && stars[k * 3..k * 3 + 3].iter().all(|x| is_unit(*x))
}

// Tells whether question 9 is answered yes for every star of the slice. The loop never ends early, so that a processor can test several
// components at once.
pub fn every_star_valid(stars: &[f32]) -> bool
    ensures { result ≡ every_star stars.now }
{
    let mut valid = true;
    for x in &stars[..stars.len() / 3 * 3] {
        if !is_unit(*x) {
            valid = false;
        }
    }
    valid
}
