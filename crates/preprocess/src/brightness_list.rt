// The brightness list holds centroid indices in order of brightness. This module asks question 3 of it and finds the centroid at a place of it.
ghost use Rattle.std.specs.Prelude.{◌≡◌, ◌<◌, true, length};
ghost use Rattle.preprocess.specs.BrightnessList.{order_fits, all_below, none_twice, centroid_of};

use crate::unit_vectors::CentroidIndex;

// A place in the brightness list.
#[derive(Clone, Copy)]
pub struct Place(pub u32);

// Returns whether each of the indices is below n.
fn all_below(order: &[u32], n: usize) -> bool
    ensures { result ≡ all_below n order.now }
{
    order.iter().all(|x| (*x as usize) < n)
}

// Returns whether no index stands twice. The indices are below 256, and the loop sets one mark for each index that it has met.
fn none_twice_marked(order: &[u32]) -> bool
    requires { all_below 256 order.now ≡ true }
    ensures { result ≡ none_twice order.now }
{
    let mut seen = [false; 256];
    for x in order {
        let at = *x as usize;
        if seen[at] {
            return false;
        }
        seen[at] = true;
    }
    true
}

// Returns whether no index stands twice, as `none_twice_marked` does, for indices of any size. It serves slices that question 1 refuses.
fn none_twice(order: &[u32]) -> bool
    ensures { result ≡ none_twice order.now }
{
    for (i, x) in order.iter().enumerate() {
        if order[i + 1..].contains(x) {
            return false;
        }
    }
    true
}

// Question 3: is every index in the brightness list below the centroid count, and none twice? A centroid is two of the floats.
pub fn order_fits(order: &[u32], centroids: &[f32]) -> bool
    ensures { result ≡ order_fits order.now centroids.now }
{
    let count = centroids.len() / 2;
    if !all_below(order, count) {
        return false;
    }
    if count <= 256 {
        return none_twice_marked(order);
    }
    none_twice(order)
}

// Returns the index of the centroid at a place of the brightness list. This is the only way from a place to a centroid index.
pub fn centroid_of(order: &[u32], p: Place) -> CentroidIndex
    requires { p.0 < length order.now }
    ensures { result ≡ centroid_of order.now p }
{
    let i = p.0 as usize;
    let index = order[i];
    CentroidIndex(index)
}
