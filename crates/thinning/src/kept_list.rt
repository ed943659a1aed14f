// Thinning: chooses the spots of a pass that form patterns. None of them is too near to a brighter spot that is kept.
ghost use Rattle.std.specs.Prelude.{◌≡◌, true, ◌+◌, ◌≤◌, ◌<◌, length};
ghost use Rattle.preprocess.specs.BrightnessList.{order_fits};
ghost use Rattle.thinning.specs.KeptList.{spot_at, Kept};
ghost use Rattle.thinning.specs.LookAhead.{Ahead};

use crate::separation::Columns;
use preprocess::brightness_list::Place;

// Writes the directions of the eight spots from place `from` on to `ahead`, as far as the brightness list goes. They are worked out together,
// so that the processor can begin one before the square root of another is done.
fn look_ahead(centroids: &[f32], order: &[u32], scale: f32, from: usize, ahead: &mut [[f32; 3]; 8])
    requires { (order_fits order.now centroids.now ≡ true) × (length order.now ≤ 256) × (from ≤ 256) }
    ensures { Ahead (spot_at centroids.now order.now scale) (length order.now) from 8 ahead.new }
{
    for j in 0..8 {
        if from + j < order.len() {
            let i = preprocess::brightness_list::centroid_of(order, Place((from + j) as u32));
            ahead[j] = preprocess::unit_vectors::unit_vector(centroids, i, scale);
        }
    }
}

// Writes the kept places of a pass, in the order of the brightness list and cut to the first `most`, to `places`, writes their directions
// to `dirs`, and returns their count. What stands after them in the two arrays is left open.
// Kept: fills two arrays that the caller lends, since there is no heap; that the list fits is a clause, since `Frame` is in a crate above.
pub fn thin(
    centroids: &[f32],
    order: &[u32],
    scale: f32,
    cosine: f32,
    most: u32,
    places: &mut [Place; 64],
    dirs: &mut [[f32; 3]; 64],
) -> u32
    requires { (order_fits order.now centroids.now ≡ true) × (length order.now ≤ 256) × (most ≤ 64) }
    ensures { Kept cosine (spot_at centroids.now order.now scale) (length order.now) most result places.new dirs.new }
{
    let mut cols = Columns::new();
    let mut ahead = [[0.0f32; 3]; 8];
    for i in 0..order.len() {
        let kept = cols.len();
        // The cut would remove any later ones.
        if most as usize <= kept {
            return kept as u32;
        }
        if i % 8 == 0 {
            look_ahead(centroids, order, scale, i, &mut ahead);
        }
        let v = ahead[i % 8];
        if !cols.too_close(cosine, v) {
            places[kept] = Place(i as u32);
            dirs[kept] = v;
            cols.push(v);
        }
    }
    cols.len() as u32
}
