// Question 9 asked of the stars ahead of the reads: what a call knows of the star slice, and how it learns more.
ghost use Rattle.std.specs.Prelude.{◌≡◌, ◌≤◌, length};
ghost use Rattle.fast_path.specs.ValidStars.{known_count, allowed_stars, validated_stars};

// What a call knows of the star slice: every star below a number is valid.
#[derive(Clone, Copy)]
pub enum ValidStars {
    // More stars are to be asked.
    SoFar(u32),
    // No more stars are to be asked, since all were or an invalid one was met.
    Final(u32),
}

impl ValidStars {
    // Returns the number below which every star is known to be valid.
    pub fn count(self) -> u32
        ensures { result ≡ known_count self }
    {
        match self {
            ValidStars::SoFar(valid) | ValidStars::Final(valid) => valid,
        }
    }
}

// Returns how many of n stars a call may have asked once it has made `made` reads: 64 for each read, which takes about half as long as the
// read itself.
fn allowed_stars(n: usize, made: u64) -> usize
    requires { n ≤ 1048576 }
    ensures { (result ≡ allowed_stars n made) × (result ≤ n) }
{
    if made < (n / 64) as u64 {
        return made as usize * 64;
    }
    n
}

// Asks question 9 of the stars after the known ones, each once, as far as the reads that the call has made allow. Returns what is known then.
// Kept: that the stars are within question 7's limit is a clause, since a Table is lent before it is asked.
pub fn validate_stars(stars: &[f32], known: ValidStars, made: u64) -> ValidStars
    requires { length stars.now ≤ 3145728 }
    ensures { result ≡ validated_stars stars.now known made }
{
    let ValidStars::SoFar(valid) = known else {
        return known;
    };
    let n = stars.len() / 3;
    let from = valid as usize;
    let to = allowed_stars(n, made);
    if to <= from {
        return known;
    }
    let a = from * 3;
    let b = to * 3;
    if !pattern_entry::stars::every_star_valid(&stars[a..b]) {
        return ValidStars::Final(valid);
    }
    if to == n {
        return ValidStars::Final(to as u32);
    }
    ValidStars::SoFar(to as u32)
}
