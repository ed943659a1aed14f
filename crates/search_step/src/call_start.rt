// The read that a call begins with, by the state that it is given.
ghost use Rattle.std.specs.Prelude.{◌≡◌, List, ℕ, Float};
ghost use Rattle.undivided_run.specs.Step.{resume, first_read};
ghost use Rattle.search_feed.specs.Data.{data_of};
ghost use Rattle.search_feed.specs.Lent.{frame_in};
ghost use Rattle.search_feed.specs.Feed.{feed};
ghost use Rattle.search_cache.specs.Cache.{PassCacheValid};
ghost use Rattle.search_step.specs.CacheAfter.{CacheAfter};

use search_cache::pass::Cache;
use search_feed::lent::FittingFrame;
use undivided_run::state::{Next, Phase, State, Status};

// Returns the next read that the state st has, or its end: for a fresh state this is the first read of the run, and the cache is loaded for the
// passes that that asks for.
pub fn start_call(fitting: &FittingFrame<'_>, slots: u64, st: State, cache: &mut Cache) -> Next
    requires { PassCacheValid (frame_in fitting.now.frame) cache.old }
    ensures next { (w e : List ℕ) (s : List Float) → result ≡ resume (first_read (feed (data_of (frame_in fitting.now.frame) slots w e s)) fitting.now.frame.config.cap) st.phase }
    ensures caches { CacheAfter (frame_in fitting.now.frame) cache.old cache.new }
{
    match st.phase {
        Phase::Fresh => crate::next_pass::to_pass(fitting, slots, 0, Status::NoMatch, 0, cache),
        Phase::Ended(s) => Next::Ends(s),
        Phase::At(p) => Next::Goes(p),
    }
}
