// The read after a read: the next probe, key or combination, or the first read of a later pass.
ghost use Rattle.std.specs.Prelude.{◌≡◌, List, ℕ, Float};
ghost use Rattle.undivided_run.specs.Undivided.{filled};
ghost use Rattle.undivided_run.specs.Step.{after_combination, after_key, next_read};
ghost use Rattle.search_feed.specs.Data.{data_of};
ghost use Rattle.search_feed.specs.Lent.{frame_in};
ghost use Rattle.search_feed.specs.Feed.{feed};
ghost use Rattle.search_step.specs.CacheAfter.{CacheAfter};
ghost use Rattle.search_step.specs.LoadedRead.{LoadedRead};

use search_cache::pass::Cache;
use search_cache::read::Loaded;
use search_feed::lent::FittingFrame;
use undivided_run::state::{Next, Position, Status};

// The read after the last of a combination: the next combination of the pass, or the passes after.
// Kept: `LoadedRead` is a clause, here and below, since it is said of frame, cache and read together; these travel apart where one changes.
fn after_combination(
    fitting: &FittingFrame<'_>,
    slots: u64,
    p: Position,
    loaded: Loaded,
    tried: u64,
    cache: &mut Cache,
) -> Next
    requires { LoadedRead (frame_in fitting.now.frame) slots cache.old loaded p }
    ensures next { (w e : List ℕ) (s : List Float) → result ≡ after_combination (feed (data_of (frame_in fitting.now.frame) slots w e s)) fitting.now.frame.config.cap p.pass p.four tried }
    ensures caches { CacheAfter (frame_in fitting.now.frame) cache.old cache.new }
{
    match p.four.next(loaded.kept) {
        Some(q) => Next::to_combination(fitting.frame.config.cap, tried, p.pass, q),
        None => crate::next_pass::to_pass(
            fitting,
            slots,
            p.pass + 1,
            Status::NoMatch,
            tried,
            cache,
        ),
    }
}

// The read after the last of a key: the next key of the combination, or what comes after the combination.
fn after_key(
    fitting: &FittingFrame<'_>,
    slots: u64,
    p: Position,
    loaded: Loaded,
    tried: u64,
    cache: &mut Cache,
) -> Next
    requires { LoadedRead (frame_in fitting.now.frame) slots cache.old loaded p }
    ensures next { (w e : List ℕ) (s : List Float) → result ≡ after_key (feed (data_of (frame_in fitting.now.frame) slots w e s)) fitting.now.frame.config.cap p.pass p.four p.key tried }
    ensures caches { CacheAfter (frame_in fitting.now.frame) cache.old cache.new }
{
    if p.key + 1 < loaded.keys {
        return Next::Goes(p.next_key());
    }
    after_combination(fitting, slots, p, loaded, tried, cache)
}

// The read after this one, whose slot is filled or not, with the combinations tried by then.
pub fn after(
    fitting: &FittingFrame<'_>,
    slots: u64,
    p: Position,
    loaded: Loaded,
    full: bool,
    tried: u64,
    cache: &mut Cache,
) -> Next
    requires { LoadedRead (frame_in fitting.now.frame) slots cache.old loaded p }
    ensures next { (w e : List ℕ) (s : List Float) → full ≡ filled (feed (data_of (frame_in fitting.now.frame) slots w e s)) p → result ≡ next_read (feed (data_of (frame_in fitting.now.frame) slots w e s)) fitting.now.frame.config.cap p tried }
    ensures caches { CacheAfter (frame_in fitting.now.frame) cache.old cache.new }
{
    if full && ((p.probe + 1) as u64) < slots {
        return Next::Goes(p.next_probe());
    }
    after_key(fitting, slots, p, loaded, tried, cache)
}
