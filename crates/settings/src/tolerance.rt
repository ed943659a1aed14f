// Options, which a host may leave out, and the tolerance e that the search uses.
ghost use Rattle.std.specs.Prelude.{◌≡◌, ◌≤◌};
ghost use Rattle.settings.specs.Tolerance.{option_fits, wanted_of, tolerance_of};

// A float that is present with its value or absent: match_max_error and fov_max_error_rad.
// Kept: not std's Option, since document 01 names this enum among its forms.
#[derive(Clone, Copy)]
pub enum Tolerance {
    Given(f32),
    Absent,
}

// Returns whether an option is absent or finite.
pub fn option_fits(t: Tolerance) -> bool
    ensures { result ≡ option_fits t }
{
    match t {
        Tolerance::Given(x) => numeric::magnitude::is_finite(x),
        Tolerance::Absent => true,
    }
}

// Returns the larger of the user's tolerance and the table's, and the table's where the user's is absent.
fn wanted(own: Tolerance, table: f32) -> f32
    ensures { result ≡ wanted_of own table }
{
    match own {
        Tolerance::Given(x) => numeric::min_max::larger(x, table),
        Tolerance::Absent => table,
    }
}

// Returns the tolerance e: the larger of the user's and the table's, and at most the larger of 8 / bins and the table's. The source writes
// 16 / (2 · bins) for 8 / bins, which is the same f32.
// Kept: that bins are at most 4,096 is a clause, here and in four other functions: the number comes alone or in settings not yet asked about.
pub fn max_error(own: Tolerance, table: f32, bins: u32) -> f32
    requires { bins ≤ 4096 }
    ensures { result ≡ tolerance_of own table bins }
{
    let ceiling = numeric::min_max::larger(8.0 / bins as f32, table);
    numeric::min_max::smaller(wanted(own, table), ceiling)
}
