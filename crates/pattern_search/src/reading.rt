// One iteration of a call: the reads that give nothing gone over, then a read and what it makes of the call.
ghost use Rattle.std.specs.Prelude.{◌≡◌, ◌+◌, ◌-◌, ◌≤◌, ◌<◌};
ghost use Rattle.search_feed.specs.Lent.{frame_in, data_in};
ghost use Rattle.search_cache.specs.Cache.{LoadedPass, LoadedCombination, LoadedFor};
ghost use Rattle.pattern_search.specs.Iteration.{saw_entry, iteration_after, cursor_after_skip, Ready, Iterated};

use crate::{Answer, Iteration, Searched};
use fast_path::probe_chain::KnownTable;
use fast_path::skip_reads::SkipResult;
use search_cache::pass::Cache;
use search_cache::read::Loaded;
use search_feed::ReadOutcome;
use search_feed::lent::{FittingFrame, Table};
use std::ops::ControlFlow;
use undivided_run::state::{Cursor, Next, Position, State};

// Returns whether the slot that a read saw is filled.
fn saw_entry(read: ReadOutcome) -> bool
    ensures { result ≡ saw_entry read }
{
    !matches!(read, ReadOutcome::Empty)
}

// What a read makes of the call, with the cursor after it: the candidate that it gave, or on to the next read.
fn iteration_after(read: ReadOutcome, on: Cursor, left: u64) -> Iteration
    ensures { result ≡ iteration_after read on left }
{
    let ReadOutcome::Found(candidate) = read else {
        return ControlFlow::Continue((on, left));
    };
    ControlFlow::Break(Searched {
        answer: Ok(Answer::Candidate(candidate)),
        state: on.state(),
    })
}

// The cursor after the reads of a combination that fast_path skipped.
fn after_skip(cursor: Cursor, p: Position, s: SkipResult, allowance: u64) -> Cursor
    requires { (s.left ≤ allowance) × (cursor.patterns < 9223372036854775808) × (cursor.reads + (allowance - s.left) ≤ 9223372036854775808) }
    ensures { result ≡ cursor_after_skip cursor p s allowance }
{
    if s.left == allowance {
        return cursor;
    }
    let n = p.count(cursor.patterns);
    let to = p.at_key(s.key, s.probe);
    Cursor {
        next: Next::Goes(to),
        patterns: n,
        reads: cursor.reads + (allowance - s.left),
    }
}

// One read, the cache loaded for it, and what it makes of the call.
// Kept: `Ready` is a clause, here, below and in call.rt, said of frame, table, cursor and cache together; these go apart, since cursor and allowance
// change from read to read.
fn single_read(
    fitting: &FittingFrame<'_>,
    table: &Table<'_>,
    st: State,
    allowance: u64,
    cursor: Cursor,
    p: Position,
    loaded: Loaded,
    cache: &mut Cache,
) -> Iteration
    requires { Ready (data_in fitting.now.frame table.now) cursor cache.old × (cursor.next ≡ Next.Goes p) × LoadedPass (frame_in fitting.now.frame) p.pass cache.old × LoadedCombination (frame_in fitting.now.frame) p.pass p.four cache.old × LoadedFor (frame_in fitting.now.frame) p.pass p.four loaded × (0 < allowance) }
    ensures { Iterated (data_in fitting.now.frame table.now) st allowance cursor cache.new result }
{
    let field = settings::passes::pass_at(fitting.frame.passes, p.pass).field;
    let read = match search_feed::read_slot(
        p,
        loaded.image,
        &cache.places,
        &cache.hashes,
        fitting.frame.config,
        field,
        table,
    ) {
        Ok(read) => read,
        Err(question) => {
            return ControlFlow::Break(Searched {
                answer: Err(question),
                state: st,
            });
        }
    };
    let full = saw_entry(read);
    let on = search_step::step::step(fitting, table.slots, p, loaded, full, cursor, cache);
    iteration_after(read, on, allowance - 1)
}

// Over the reads of the combination at hand that give nothing, then the read that they lead to, if the allowance has one left.
fn skip_then_read(
    fitting: &FittingFrame<'_>,
    known: &KnownTable<'_>,
    st: State,
    allowance: u64,
    cursor: Cursor,
    p: Position,
    cache: &mut Cache,
) -> Iteration
    requires { Ready (data_in fitting.now.frame known.now.table) cursor cache.old × (cursor.next ≡ Next.Goes p) }
    ensures { Iterated (data_in fitting.now.frame known.now.table) st allowance cursor cache.new result }
{
    let loaded = cache.load(fitting, p);
    let s = fast_path::skip_reads::skip_reads(
        p.key,
        p.probe,
        loaded.keys,
        &cache.hashes,
        known,
        allowance,
    );
    let on = after_skip(cursor, p, s, allowance);
    if s.left == 0 {
        return ControlFlow::Break(Searched {
            answer: Ok(Answer::AllowanceUsed),
            state: on.state(),
        });
    }
    let to = p.at_key(s.key, s.probe);
    single_read(fitting, &known.table, st, s.left, on, to, loaded, cache)
}

// One iteration: ends the call where no read or no allowance is left, else skips reads that give nothing and makes the next.
pub fn iterate(
    fitting: &FittingFrame<'_>,
    known: &KnownTable<'_>,
    st: State,
    allowance: u64,
    cursor: Cursor,
    cache: &mut Cache,
) -> Iteration
    requires { Ready (data_in fitting.now.frame known.now.table) cursor cache.old }
    ensures { Iterated (data_in fitting.now.frame known.now.table) st allowance cursor cache.new result }
{
    match cursor.next {
        Next::Ends(s) => ControlFlow::Break(Searched {
            answer: Ok(Answer::Ended(s)),
            state: cursor.state(),
        }),
        Next::Goes(p) => {
            if allowance == 0 {
                return ControlFlow::Break(Searched {
                    answer: Ok(Answer::AllowanceUsed),
                    state: cursor.state(),
                });
            }
            skip_then_read(fitting, known, st, allowance, cursor, p, cache)
        }
    }
}
