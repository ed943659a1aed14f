// The first read of a pass or, where it has none, of the passes after it.
ghost use Rattle.std.specs.Prelude.{◌≡◌, List, ℕ, ◌-◌, ◌/◌, ◌≤◌, Float, length};
ghost use Rattle.undivided_run.specs.Step.{to_pass};
ghost use Rattle.search_feed.specs.Data.{data_of};
ghost use Rattle.search_feed.specs.Lent.{frame_in};
ghost use Rattle.search_feed.specs.Feed.{feed};
ghost use Rattle.search_cache.specs.Cache.{PassCacheValid};
ghost use Rattle.search_step.specs.CacheAfter.{CacheAfter};

use crate::pass_start::PassStart;
use search_cache::pass::Cache;
use search_feed::lent::FittingFrame;
use undivided_run::state::{Next, Position, Status, reached};

// Returns the first read of the passes from `from` on, or the end of the run, and loads the cache for the passes that that asks for. `status` is
// that of the pass before, and `tried` combinations were tried.
pub fn to_pass(
    fitting: &FittingFrame<'_>,
    slots: u64,
    from: u32,
    status: Status,
    tried: u64,
    cache: &mut Cache,
) -> Next
    requires { PassCacheValid (frame_in fitting.now.frame) cache.old × (from ≤ length fitting.now.frame.passes.now / 3) }
    ensures next { (w p : List ℕ) (s : List Float) → result ≡ to_pass (feed (data_of (frame_in fitting.now.frame) slots w p s)) fitting.now.frame.config.cap (length fitting.now.frame.passes.now / 3 - from) from status tried }
    ensures caches { CacheAfter (frame_in fitting.now.frame) cache.old cache.new }
{
    let n = (fitting.frame.passes.len() / 3) as u32;
    let mut s = status;
    for i in from..n {
        if reached(fitting.frame.config.cap, tried) {
            return Next::Ends(Status::Timeout);
        }
        let kept = cache.rebuild_pass(fitting, i);
        match crate::pass_start::start_pass(kept, slots, fitting.frame.config.patterns) {
            PassStart::First(q) => return Next::Goes(Position::first_of(i, q)),
            PassStart::Over(t) => s = t,
        }
    }
    Next::Ends(s)
}
