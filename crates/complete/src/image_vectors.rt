// The image's side of a completed candidate: the pixel scale, the unit vectors of the spots at its four places, and their matched order.
ghost use Rattle.std.specs.Prelude.{◌≡◌, true, ◌/◌, ◌<◌, length};
ghost use Rattle.preprocess.specs.BrightnessList.{order_fits};
ghost use Rattle.complete.specs.ImageVectors.{scale_of, image_vector, image_vectors, matched_of};
ghost use Rattle.complete.specs.PlacesInside.{PlacesInside};

use candidates::entry_tests::Candidate;
use preprocess::brightness_list::Place;

// Returns the pixel scale to use: the one given where the candidate's rebuild mark is set, else the scale of its pass.
pub fn pixel_scale(passes: &[f32], candidate: Candidate, scale: f32) -> f32
    requires { candidate.pass < length passes.now / 3 }
    ensures { result ≡ scale_of passes.now candidate scale }
{
    let own = settings::passes::pass_at(passes, candidate.pass);
    if candidate.rebuild {
        return scale;
    }
    own.scale
}

// Returns the unit vector of the centroid at a place of the brightness list.
fn image_vector(centroids: &[f32], order: &[u32], p: Place, scale: f32) -> [f32; 3]
    requires { (order_fits order.now centroids.now ≡ true) × (p.0 < length order.now) }
    ensures { result ≡ image_vector centroids.now order.now p scale }
{
    preprocess::unit_vectors::unit_vector(
        centroids,
        preprocess::brightness_list::centroid_of(order, p),
        scale,
    )
}

// Returns the unit vectors of the centroids at four places, in the order of the places.
// Kept: four by name, since a map, as candidates/src/star_vectors.rt has one, needs a clause in its closure and a longer proof.
pub fn image_vectors(
    centroids: &[f32],
    order: &[u32],
    places: [Place; 4],
    scale: f32,
) -> [[f32; 3]; 4]
    requires { PlacesInside centroids.now order.now places }
    ensures { result ≡ image_vectors centroids.now order.now places scale }
{
    let a = image_vector(centroids, order, places[0], scale);
    let b = image_vector(centroids, order, places[1], scale);
    let c = image_vector(centroids, order, places[2], scale);
    let d = image_vector(centroids, order, places[3], scale);
    [a, b, c, d]
}

// Returns four directions in matched order: by distance to the centroid of the four, the nearest first.
pub fn matched(v: [[f32; 3]; 4]) -> [[f32; 3]; 4]
    ensures { result ≡ matched_of v }
{
    let order = pattern::centroid_order::sort_pattern_by_centroid_distance(v);
    pattern::centroid_order::in_order(v, order)
}
