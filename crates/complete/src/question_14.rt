// The questions about a candidate before it is completed: question 14, and question 9 for its stars.
ghost use Rattle.std.specs.Prelude.{◌≡◌};
ghost use Rattle.complete.specs.Question14.{places_rise, candidate_fits, four_valid};

use candidates::entry_tests::Candidate;
use pattern_entry::stars::StarIndex;
use preprocess::brightness_list::Place;

// Returns whether the four places rise strictly and the last one is below n.
#[tactic(auto, unfolding(crate::specs::Question14::places_rise))]
fn places_rise(places: [Place; 4], n: usize) -> bool
    ensures { result ≡ places_rise places n }
{
    let [a, b, c, d] = places;
    a.0 < b.0 && b.0 < c.0 && c.0 < d.0 && (d.0 as usize) < n
}

// Question 14: does the pass exist, do the four places rise below the list's length, is the scale above 0 and at most 16?
#[tactic(auto, unfolding(crate::specs::Question14::candidate_fits))]
pub fn candidate_fits(order: &[u32], passes: &[f32], candidate: Candidate, scale: f32) -> bool
    ensures { result ≡ candidate_fits order.now passes.now candidate scale }
{
    (candidate.pass as usize) < passes.len() / 3
        && places_rise(candidate.places, order.len())
        && settings::pass_limits::scale_fits(scale)
}

// Question 9 for four stars: does each lie inside the star slice, with components that are finite and of magnitude at most 1?
pub fn four_valid(stars: &[f32], four: [StarIndex; 4]) -> bool
    ensures { result ≡ four_valid stars.now four }
{
    four.iter()
        .all(|i| pattern_entry::stars::star_valid(stars, *i))
}
