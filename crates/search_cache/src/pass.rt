// The cache of a call: the kept list of the present pass, with the angles of its spots once they are worked out, and the keys of the present
// combination, which combination.rt loads.
ghost use Rattle.std.specs.Prelude.{◌≡◌, ℕ, ◌/◌, ◌<◌, List, length, Some};
ghost use Rattle.search_feed.specs.Image.{kept_places};
ghost use Rattle.search_feed.specs.Lent.{frame_in};
ghost use Rattle.search_cache.specs.Cache.{EmptyCache, PassCacheValid, HashesFit, LoadedPass};
ghost use Rattle.search_cache.specs.declared.pass.KeptPass.{KeptPass};

use crate::angles::Geometry;
use candidates::entry_tests::Image;
use combinations::Combination;
use preprocess::brightness_list::Place;
use search_feed::lent::FittingFrame;

// A pass that the cache is loaded for: its number, and how many spots it keeps.
#[derive(Clone, Copy)]
pub struct KeptPass {
    pub number: u32,
    pub kept: u32,
}

// A combination that the cache is loaded for: how many keys it has, and what the frame shows of it.
#[derive(Clone, Copy)]
pub struct CombinationKeys {
    pub four: Combination,
    pub keys: u32,
    pub image: Image,
}

// What a call keeps between reads. A call makes one, and lends it from then on.
// Kept: what holds of it (specs/Cache.antt) is in the clauses of functions and no ghost field, since it is said of the frame too.
#[derive(Clone, Copy)]
pub struct Cache {
    // The pass that `places` and `geometry` are loaded for, if any.
    pub pass: Option<KeptPass>,
    // The places that the pass keeps, at most 64. Kept: an array, and its count in `pass`, since there is no heap; so are the hashes.
    pub places: [Place; 64],
    // Their directions, and the angle of each two of them.
    pub geometry: Geometry,
    // The combination of that pass that `hashes` is loaded for, if any.
    pub four: Option<CombinationKeys>,
    // The hashes of the combination's keys, at most 1,024.
    pub hashes: [u64; 1024],
}

impl Cache {
    // Returns a cache that holds nothing.
    pub fn empty() -> Cache
        ensures { EmptyCache result }
    {
        Cache {
            pass: None,
            places: [Place(0); 64],
            geometry: Geometry {
                numbers: [0.0; 2208],
            },
            four: None,
            hashes: [0; 1024],
        }
    }

    // Works out the kept list of a pass, loads the cache for that pass, and returns how many spots it keeps.
    pub fn rebuild_pass(&mut self, fitting: &FittingFrame<'_>, pass: u32) -> u32
        requires { pass < length fitting.now.frame.passes.now / 3 }
        ensures loaded { LoadedPass (frame_in fitting.now.frame) pass self.new }
        ensures combination { (l : List ℕ) → HashesFit (frame_in fitting.now.frame) self.new l }
        ensures hashes { self.new.hashes ≡ self.old.hashes }
        ensures count { result ≡ length (kept_places (frame_in fitting.now.frame) pass) }
    {
        let p = settings::passes::pass_at(fitting.frame.passes, pass);
        let mut dirs = [[0.0; 3]; 64];
        let kept = thinning::kept_list::thin(
            fitting.frame.centroids,
            fitting.frame.order,
            p.scale,
            p.cosine,
            fitting.frame.config.checking,
            &mut self.places,
            &mut dirs,
        );
        self.geometry.load(&dirs, kept as usize);
        self.pass = Some(KeptPass { number: pass, kept });
        self.four = None;
        kept
    }

    // Loads the cache for a pass, unless it has that pass already, and returns how many spots the pass keeps.
    pub fn load_pass(&mut self, fitting: &FittingFrame<'_>, pass: u32) -> u32
        requires { PassCacheValid (frame_in fitting.now.frame) self.old × (pass < length fitting.now.frame.passes.now / 3) }
        ensures loaded { LoadedPass (frame_in fitting.now.frame) pass self.new }
        ensures combination { (l : List ℕ) → ((p : KeptPass) → self.old.pass ≡ Some p → p.number ≡ pass → HashesFit (frame_in fitting.now.frame) self.old l) → HashesFit (frame_in fitting.now.frame) self.new l }
        ensures hashes { self.new.hashes ≡ self.old.hashes }
        ensures count { result ≡ length (kept_places (frame_in fitting.now.frame) pass) }
    {
        match self.pass {
            Some(held) if held.number == pass => held.kept,
            _ => self.rebuild_pass(fitting, pass),
        }
    }
}
