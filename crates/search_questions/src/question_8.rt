// Question 8: whether the state's counts are within their limits and its position exists here.
ghost use Rattle.std.specs.Prelude.{◌≡◌, List, ℕ, Float};
ghost use Rattle.search_questions.specs.Question8.{rises_below, within_counts, position_exists, phase_fits};
ghost use Rattle.search_feed.specs.Data.{data_of};
ghost use Rattle.search_feed.specs.Lent.{frame_in};
ghost use Rattle.search_feed.specs.Feed.{feed};
ghost use Rattle.search_cache.specs.Cache.{PassCacheValid, CombinationCacheValid};

use combinations::Combination;
use search_cache::pass::Cache;
use search_feed::lent::FittingFrame;
use undivided_run::state::{Phase, Position, State};

// Returns whether the four positions of a combination rise and are below n.
#[tactic(auto, unfolding(crate::specs::Question8::rises_below))]
fn rises_below(q: Combination, n: u32) -> bool
    ensures { result ≡ rises_below n q }
{
    q.a < q.b && q.b < q.c && q.c < q.d && q.d < n
}

// Returns whether the counts are within question 8's limits: 162,656,256 patterns and 2^62 reads.
#[tactic(auto, unfolding(crate::specs::Question8::within_counts))]
fn within_counts(patterns: u64, reads: u64) -> bool
    ensures { result ≡ within_counts patterns reads }
{
    patterns <= 162656256 && reads <= 4611686018427387904
}

// Returns whether the pass, combination, key and probe numbers of p exist here, and loads the cache for its pass and combination as far as those
// exist.
fn position_exists(fitting: &FittingFrame<'_>, slots: u64, p: Position, cache: &mut Cache) -> bool
    requires { PassCacheValid (frame_in fitting.now.frame) cache.old × CombinationCacheValid (frame_in fitting.now.frame) cache.old }
    ensures fits { (w e : List ℕ) (s : List Float) → result ≡ position_exists (feed (data_of (frame_in fitting.now.frame) slots w e s)) p }
    ensures caches { PassCacheValid (frame_in fitting.now.frame) cache.new × CombinationCacheValid (frame_in fitting.now.frame) cache.new }
{
    if fitting.frame.config.patterns == 0 {
        return false;
    }
    if (fitting.frame.passes.len() / 3) as u32 <= p.pass {
        return false;
    }
    let kept = cache.load_pass(fitting, p.pass);
    if !rises_below(p.four, kept) {
        return false;
    }
    let loaded = cache.load(fitting, p);
    if loaded.keys <= p.key {
        return false;
    }
    (p.probe as u64) < slots
}

// Returns the answer to question 8 for the state st, and loads the cache as far as the answer asks for.
pub fn state_fits(fitting: &FittingFrame<'_>, slots: u64, st: State, cache: &mut Cache) -> bool
    requires { PassCacheValid (frame_in fitting.now.frame) cache.old × CombinationCacheValid (frame_in fitting.now.frame) cache.old }
    ensures fits { (w e : List ℕ) (s : List Float) → result ≡ phase_fits (feed (data_of (frame_in fitting.now.frame) slots w e s)) st.phase st.patterns st.reads }
    ensures caches { PassCacheValid (frame_in fitting.now.frame) cache.new × CombinationCacheValid (frame_in fitting.now.frame) cache.new }
{
    match st.phase {
        Phase::Fresh => st.patterns == 0 && st.reads == 0,
        Phase::Ended(_) => within_counts(st.patterns, st.reads),
        Phase::At(p) => {
            position_exists(fitting, slots, p, cache) && within_counts(st.patterns, st.reads)
        }
    }
}
