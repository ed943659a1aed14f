// The directions of stars: each star has three components in the star slice.
ghost use Rattle.std.specs.Prelude.{◌≡◌, ◌+◌, ◌*◌, ◌<◌, length};
ghost use Rattle.candidates.specs.StarVectors.{star_of, stars_of};
ghost use Rattle.candidates.specs.StarsInside.{StarsInside};

use pattern_entry::stars::StarIndex;

// Returns the direction of a star.
fn star_vector(stars: &[f32], i: StarIndex) -> [f32; 3]
    requires { i.0 * 3 + 2 < length stars.now }
    ensures { result ≡ star_of stars.now i }
{
    let at = i.0 as usize * 3;
    [stars[at], stars[at + 1], stars[at + 2]]
}

// Returns the directions of an entry's four stars, in the entry's order.
pub fn star_vectors(stars: &[f32], four: [StarIndex; 4]) -> [[f32; 3]; 4]
    requires { StarsInside stars.now four }
    ensures { result ≡ stars_of stars.now four }
{
    four.map(
        |i: StarIndex| -> [f32; 3]
            requires { i.0 * 3 + 2 < length stars.now }
            ensures { result ≡ star_of stars.entry.now i }
        { star_vector(stars, i) },
    )
}
