// The limits of the settings of a search: question 4 of document 01.
ghost use Rattle.std.specs.Prelude.{◌≡◌, ◌≤◌};
ghost use Rattle.settings.specs.SettingsLimits.{narrow_fits, settings_fit};

use crate::tolerance::Tolerance;

// Returns whether e·bins, one f32 product, is at most 1.25. Then each part of a key has at most 4 values.
fn narrow(own: Tolerance, table: f32, bins: u32) -> bool
    requires { bins ≤ 4096 }
    ensures { result ≡ narrow_fits own table bins }
{
    crate::tolerance::max_error(own, table, bins) * bins as f32 <= 1.25
}

// Question 4: are the settings within their limits? `stars` is pattern_checking_stars, `table` the table's error, `own` the user's tolerance and
// `field` the field-of-view error. A present cap is a whole number, so there is nothing to ask of it.
pub fn settings_fit(
    bins: u32,
    stars: u32,
    table: f32,
    radius: f32,
    own: Tolerance,
    field: Tolerance,
) -> bool
    ensures { result ≡ settings_fit bins stars table radius own field }
{
    bins >= 1
        && bins <= 4096
        && stars <= 64
        && 0.0 <= table
        && table <= 1.0
        && numeric::magnitude::is_finite(radius)
        && 0.0 <= radius
        && crate::tolerance::option_fits(own)
        && crate::tolerance::option_fits(field)
        && narrow(own, table, bins)
}
