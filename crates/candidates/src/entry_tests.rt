// The tests of a filled slot's entry against a combination of the image: whether it gives a candidate, and what a candidate carries.
ghost use Rattle.std.specs.Prelude.{◌≡◌};
ghost use Rattle.candidates.specs.StarsInside.{StarsInside};
ghost use Rattle.candidates.specs.NoCandidate.{no_candidate};
ghost use Rattle.candidates.specs.EntryTests.{test_of};

use crate::comparisons::{fov_consistent, inside};
use crate::star_vectors::star_vectors;
use pattern_entry::entry::PatternEntry;
use pattern_entry::stars::StarIndex;
use preprocess::brightness_list::Place;
use settings::tolerance::Tolerance;

// What the image shows of a combination.
#[derive(Clone, Copy)]
pub struct Image {
    // The largest edge: the largest angle between two of the four spots, in radians.
    pub edge: f32,
    // The five other edges in rising order, each divided by the largest; all 0 where the largest isn't above 0.
    pub ratios: [f32; 5],
}

// A candidate: four spots of the image that may be the four stars of a table entry. A table read gives it.
#[derive(Clone, Copy)]
pub struct Candidate {
    // The number of the pass, counted from 0.
    pub pass: u32,
    // The combination, as four places in the brightness list.
    pub places: [Place; 4],
    // The slot that was read.
    pub slot: u64,
    // The four stars of the entry.
    pub stars: [StarIndex; 4],
    // The measured field of view, in radians.
    pub field: f32,
    // The rebuild mark: the measured field differs so much from the pass's field that completing uses the pixel scale that the host gives for it.
    pub rebuild: bool,
}

// Returns the candidate whose numbers are all zero. It stands in the answers for C that give none; in Rattle such an answer holds no candidate.
pub fn no_candidate() -> Candidate
    ensures { result ≡ no_candidate }
{
    let places = [Place(0), Place(0), Place(0), Place(0)];
    let stars = [StarIndex(0), StarIndex(0), StarIndex(0), StarIndex(0)];
    Candidate {
        pass: 0,
        places,
        slot: 0,
        stars,
        field: 0.0,
        rebuild: false,
    }
}

// Tests an entry: its mark, its stored edge's field, its stars' ratios, the measured field. Returns that field where it gives a candidate, else none.
// `mark` is that of the key whose chain is read, `e` the tolerance, `field` the pass's field of view, `error` the field-of-view error.
pub fn test_entry(
    entry: PatternEntry,
    mark: u16,
    stars: &[f32],
    image: Image,
    e: f32,
    field: f32,
    error: Tolerance,
) -> Option<f32>
    requires { StarsInside stars.now entry.stars }
    ensures { result ≡ test_of entry mark stars.now image e field error }
{
    if entry.mark != mark {
        return None;
    }
    let edge = image.edge;
    let stored = entry.edge;
    if !fov_consistent(error, stored, edge, field) {
        return None;
    }
    let four = entry.stars;
    let angles = pattern::edges::compute_sorted_edge_angles(star_vectors(stars, four));
    let ratios = image.ratios;
    if !inside(ratios, e, pattern::edges::compute_edge_ratios(angles)) {
        return None;
    }
    let largest = angles[5];
    let measured = largest / edge * field;
    if !settings::pass_limits::field_fits(measured) {
        return None;
    }
    Some(measured)
}
