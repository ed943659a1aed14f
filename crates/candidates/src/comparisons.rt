// The comparisons of an entry with the image: the field of view that the stored edge implies, the five ratios, and the measured field for
// the rebuild mark.
ghost use Rattle.std.specs.Prelude.{◌≡◌};
ghost use Rattle.candidates.specs.Comparisons.{fov_consistent, inside_one, inside, rebuild_of};

use settings::tolerance::Tolerance;

// Returns whether the stored edge agrees with the pass's field of view (the source's FOV consistency check): where a field-of-view error is given,
// the field that the stored edge implies may not differ from the pass's field by more. A NaN difference is not more.
pub fn fov_consistent(error: Tolerance, stored: f32, edge: f32, field: f32) -> bool
    ensures { result ≡ fov_consistent error stored edge field }
{
    match error {
        Tolerance::Absent => true,
        Tolerance::Given(most) => {
            let implied = stored / edge * field;
            if most < numeric::magnitude::magnitude(implied - field) {
                return false;
            }
            true
        }
    }
}

// Whether a star ratio lies strictly inside the tolerance about an image ratio.
#[tactic(auto, unfolding(crate::specs::Comparisons::inside_one))]
fn inside_one(ratio: f32, e: f32, x: f32) -> bool
    ensures { result ≡ inside_one ratio e x }
{
    ratio - e < x && x < ratio + e
}

// Whether all five do.
pub fn inside(ratios: [f32; 5], e: f32, x: [f32; 5]) -> bool
    ensures { result ≡ inside ratios e x }
{
    ratios.iter().zip(&x).all(|(r, x)| inside_one(*r, e, *x))
}

// The rebuild mark: returns whether |measured / field − 1| is above a quarter of the match radius, `field` being the pass's field of view.
pub fn needs_rebuild(measured: f32, field: f32, radius: f32) -> bool
    ensures { result ≡ rebuild_of measured field radius }
{
    0.25 * radius < numeric::magnitude::magnitude(measured / field - 1.0)
}
