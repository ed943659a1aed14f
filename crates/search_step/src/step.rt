// One step of a call: a read is counted, and the read after it is worked out.
ghost use Rattle.std.specs.Prelude.{◌≡◌, List, ℕ, ◌<◌, Float};
ghost use Rattle.undivided_run.specs.Undivided.{filled};
ghost use Rattle.undivided_run.specs.CallInvariant.{after_read};
ghost use Rattle.search_feed.specs.Data.{data_of};
ghost use Rattle.search_feed.specs.Lent.{frame_in};
ghost use Rattle.search_feed.specs.Feed.{feed};
ghost use Rattle.search_step.specs.CacheAfter.{CacheAfter};
ghost use Rattle.search_step.specs.LoadedRead.{LoadedRead};

use search_cache::pass::Cache;
use search_cache::read::Loaded;
use search_feed::lent::FittingFrame;
use undivided_run::state::{Cursor, Position};

// Counts the read p, and its combination if p is the combination's first read, and works out what comes after p.
pub fn step(
    fitting: &FittingFrame<'_>,
    slots: u64,
    p: Position,
    loaded: Loaded,
    full: bool,
    cursor: Cursor,
    cache: &mut Cache,
) -> Cursor
    requires { LoadedRead (frame_in fitting.now.frame) slots cache.old loaded p × (cursor.patterns < 9223372036854775808) × (cursor.reads < 9223372036854775808) }
    ensures cursor { (w e : List ℕ) (s : List Float) → full ≡ filled (feed (data_of (frame_in fitting.now.frame) slots w e s)) p → result ≡ after_read (feed (data_of (frame_in fitting.now.frame) slots w e s)) fitting.now.frame.config.cap cursor p }
    ensures caches { CacheAfter (frame_in fitting.now.frame) cache.old cache.new }
{
    let n = p.count(cursor.patterns);
    let next = crate::next_read::after(fitting, slots, p, loaded, full, n, cache);
    Cursor {
        next,
        patterns: n,
        reads: cursor.reads + 1,
    }
}
