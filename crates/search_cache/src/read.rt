// Loads the cache for a read: for its pass and for its combination.
ghost use Rattle.std.specs.Prelude.{◌/◌, ◌<◌, length};
ghost use Rattle.combinations.specs.Combinations.{Rising};
ghost use Rattle.search_feed.specs.Lent.{frame_in};
ghost use Rattle.search_feed.specs.Image.{kept_places};
ghost use Rattle.search_cache.specs.Cache.{PassCacheValid, CombinationCacheValid, LoadedPass, LoadedCombination, LoadedFor};

use crate::pass::Cache;
use candidates::entry_tests::Image;
use search_feed::lent::FittingFrame;
use undivided_run::state::Position;

// What the cache is loaded with for a read: how many spots its pass keeps, how many keys its combination has, and what the frame shows of the
// combination.
#[derive(Clone, Copy)]
pub struct Loaded {
    pub kept: u32,
    pub keys: u32,
    pub image: Image,
}

impl Cache {
    // Loads the cache for the read p, and returns what it is loaded with.
    pub fn load(&mut self, fitting: &FittingFrame<'_>, p: Position) -> Loaded
        requires { PassCacheValid (frame_in fitting.now.frame) self.old × CombinationCacheValid (frame_in fitting.now.frame) self.old × (p.pass < length fitting.now.frame.passes.now / 3) × Rising (length (kept_places (frame_in fitting.now.frame) p.pass)) p.four }
        ensures { LoadedPass (frame_in fitting.now.frame) p.pass self.new × LoadedCombination (frame_in fitting.now.frame) p.pass p.four self.new × LoadedFor (frame_in fitting.now.frame) p.pass p.four result }
    {
        let kept = self.load_pass(fitting, p.pass);
        let keyed = self.load_combination(fitting.frame.config, p.four);
        Loaded {
            kept,
            keys: keyed.keys,
            image: keyed.image,
        }
    }
}
