// Loads the cache for a combination of its pass: what the frame shows of the combination, and the hashes of its keys. They are worked out anew
// only when the combination changes.
ghost use Rattle.std.specs.Prelude.{◌≡◌, ℕ, suc, true, Some};
ghost use Rattle.numeric.specs.Ratios.{Ratios};
ghost use Rattle.pattern.specs.Directions.{Directions};
ghost use Rattle.combinations.specs.Combinations.{Rising};
ghost use Rattle.search_cache.specs.AngleArray.{four_at, AnglesCached, SameDirections};
ghost use Rattle.search_feed.specs.Data.{Frame, settings_ok};
ghost use Rattle.search_feed.specs.Image.{directions_of};
ghost use Rattle.search_cache.specs.Cache.{CombinationOf, LoadedCombination};
ghost use Rattle.search_cache.specs.CombinationKeys.{image_from, Prepared};

use crate::pass::{Cache, CombinationKeys};
use candidates::entry_tests::Image;
use combinations::Combination;
use search_feed::SearchConfig;

// Returns what six angles show: the largest edge and the five ratios.
fn image_from(angles: [f32; 6]) -> Image
    ensures { result ≡ image_from angles }
{
    let edges = pattern::edge_sort::sort(angles);
    let ratios = pattern::edges::compute_edge_ratios(edges);
    let edge = edges[5];
    Image { edge, ratios }
}

// What the six angles of a combination show, and the hashes of their keys in order, so many of them.
// Kept: lent the one array that it writes; as a method of Cache its promise would also have to say that the other arrays stay as they are.
fn prepare(
    config: SearchConfig,
    four: Combination,
    angles: [f32; 6],
    hashes: &mut [u64; 1024],
) -> CombinationKeys
    requires { (settings_ok config ≡ true) × Ratios (image_from angles).ratios }
    ensures keys { Prepared config (image_from angles) result.keys result.image hashes.new }
    ensures four { result.four ≡ four }
{
    let image = image_from(angles);
    let ratios = image.ratios;
    let own = config.matching;
    let e = settings::tolerance::max_error(own, config.error, config.bins);
    let n = pattern_keys::key_hashes::key_hashes(ratios, e, config.bins, hashes);
    CombinationKeys {
        four,
        keys: n as u32,
        image,
    }
}

impl Cache {
    // Loads the cache for a combination of the pass that it is loaded for, unless it has that combination already, and returns its keys.
    pub fn load_combination(&mut self, config: SearchConfig, four: Combination) -> CombinationKeys
        requires { (settings_ok config ≡ true) × Rising 64 four × AnglesCached (suc four.d) self.old.geometry.numbers × Directions (four_at self.old.geometry.numbers four) }
        ensures loaded { (F : Frame) (i : ℕ) → F.config ≡ config → CombinationOf self.old.four F i self.old.hashes → directions_of F i four ≡ four_at self.old.geometry.numbers four → LoadedCombination F i four self.new }
        ensures rest { (self.new.pass ≡ self.old.pass) × (self.new.places ≡ self.old.places) × SameDirections self.old.geometry.numbers self.new.geometry.numbers }
        ensures keys { self.new.four ≡ Some result }
    {
        if let Some(held) = self.four
            && held.four == four
        {
            return held;
        }
        let angles = self.geometry.six_angles(four);
        let keys = prepare(config, four, angles, &mut self.hashes);
        self.four = Some(keys);
        keys
    }
}
