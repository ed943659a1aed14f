// Completing a candidate: gives the four image vectors in matched order beside the four star vectors, for the host's solver.
ghost use Rattle.std.specs.Prelude.{◌≡◌};
ghost use Rattle.complete.specs.Answers.{completed_says};
ghost use Rattle.complete.specs.Completing.{completing, completed_of};

use crate::image_vectors::{image_vectors, matched, pixel_scale};
use crate::question_14::{candidate_fits, four_valid};
use candidates::entry_tests::Candidate;
use question::Question;

// What completing gives: the image vectors in matched order and the star vectors.
#[derive(Clone, Copy)]
pub struct Completed {
    pub image: [[f32; 3]; 4],
    pub stars: [[f32; 3]; 4],
}

// Completes a candidate: asks questions 1, 2, 3, 5, 7, 14, then 9 of its stars, and the first no refuses. `scale` is the host's pixel scale for
// the measured field of view; it is used only where the rebuild mark is set.
// Kept: slices, since it takes no settings, which a Frame has, and stands below the crate of Frame.
pub fn complete(
    centroids: &[f32],
    order: &[u32],
    passes: &[f32],
    stars: &[f32],
    candidate: Candidate,
    scale: f32,
) -> Result<Completed, Question>
    ensures completed { result ≡ completed_of centroids.now order.now passes.now stars.now candidate scale }
    ensures says { completed_says result ≡ completing centroids.now order.now passes.now stars.now candidate scale }
{
    if !preprocess::unit_vectors::centroids_fit(centroids) {
        return Err(Question::CentroidSlice);
    }
    if !preprocess::unit_vectors::coordinates_fit(centroids) {
        return Err(Question::Coordinates);
    }
    if !preprocess::brightness_list::order_fits(order, centroids) {
        return Err(Question::BrightnessList);
    }
    if !settings::passes::passes_fit(passes) {
        return Err(Question::Passes);
    }
    if !pattern_entry::stars::stars_fit(stars) {
        return Err(Question::StarSlice);
    }
    if !candidate_fits(order, passes, candidate, scale) {
        return Err(Question::CandidateAndScale);
    }
    let four = candidate.stars;
    if !four_valid(stars, four) {
        return Err(Question::EntryAndStars);
    }
    let places = candidate.places;
    let at = pixel_scale(passes, candidate, scale);
    let found = image_vectors(centroids, order, places, at);
    let image = matched(found);
    let stars = candidates::star_vectors::star_vectors(stars, four);
    Ok(Completed { image, stars })
}
