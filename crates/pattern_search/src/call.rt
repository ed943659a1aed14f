// A call: the questions, the first read, and a loop of iterations.
ghost use Rattle.std.specs.Prelude.{◌≡◌, ◌≤◌, length};
ghost use Rattle.std.specs.Prelude.{None};
ghost use Rattle.undivided_run.specs.Step.{zero_call, search_call};
ghost use Rattle.undivided_run.specs.CallInvariant.{continuing};
ghost use Rattle.search_feed.specs.Lent.{frame_in, data_in};
ghost use Rattle.search_feed.specs.Feed.{feed};
ghost use Rattle.search_questions.specs.Questions.{first_seven};
ghost use Rattle.pattern_search.specs.Answers.{searched, reply_says};
ghost use Rattle.pattern_search.specs.Iteration.{Ready};
ghost use Rattle.pattern_search.specs.Demand3.{lent_by, returned};

use crate::reading::iterate;
use crate::{Answer, Searched};
use fast_path::probe_chain::KnownTable;
use fast_path::valid_stars::ValidStars;
use question::Question;
use search_cache::pass::Cache;
use search_feed::lent::{FittingFrame, Frame, Table};
use std::ops::ControlFlow;
use undivided_run::state::{Cursor, Next, Phase, State};

// Iteration after iteration, until a reply.
fn run(
    fitting: &FittingFrame<'_>,
    table: &Table<'_>,
    st: State,
    allowance: u64,
    cursor: Cursor,
    cache: &mut Cache,
) -> Searched
    requires { Ready (data_in fitting.now.frame table.now) cursor cache.old × (length table.now.stars.now ≤ 3145728) }
    ensures { result ≡ searched (continuing (feed (data_in fitting.now.frame table.now)) fitting.now.frame.config.cap st allowance cursor) }
{
    let mut w = cursor;
    let mut a = allowance;
    let mut known = ValidStars::SoFar(0);
    loop {
        let k = fast_path::valid_stars::validate_stars(table.stars, known, allowance - a);
        known = k;
        let known_table = KnownTable {
            table: *table,
            valid: k.count(),
        };
        match iterate(fitting, &known_table, st, a, w, cache) {
            ControlFlow::Break(reply) => return reply,
            ControlFlow::Continue((on, left)) => {
                w = on;
                a = left;
            }
        }
    }
}

// A call with no allowance: ended where no read is left, else nothing changes.
fn zero_call(st: State, next: Next) -> Searched
    ensures { result ≡ searched (zero_call st next) }
{
    match next {
        Next::Ends(s) => {
            let state = State {
                phase: Phase::Ended(s),
                patterns: st.patterns,
                reads: st.reads,
            };
            Searched {
                answer: Ok(Answer::Ended(s)),
                state,
            }
        }
        Next::Goes(_) => Searched {
            answer: Ok(Answer::AllowanceUsed),
            state: st,
        },
    }
}

// A call past questions 1 to 7.
fn go(frame: &Frame<'_>, table: &Table<'_>, st: State, allowance: u64) -> Searched
    requires { first_seven (frame_in frame.now) table.now.slots table.now.words.now table.now.stars.now ≡ None }
    ensures { result ≡ returned st (record { lent_data = data_in frame.now table.now; allowance = allowance }) }
{
    let fitting = FittingFrame { frame: *frame };
    let mut cache = Cache::empty();
    if !search_questions::question_8::state_fits(&fitting, table.slots, st, &mut cache) {
        return Searched {
            answer: Err(Question::SavedState),
            state: st,
        };
    }
    let next = search_step::call_start::start_call(&fitting, table.slots, st, &mut cache);
    if allowance == 0 {
        return zero_call(st, next);
    }
    let cursor = Cursor {
        next,
        patterns: st.patterns,
        reads: st.reads,
    };
    run(&fitting, table, st, allowance, cursor, &mut cache)
}

// One search call: questions 1 to 8 in order, then reads up to the allowance, 9 asked at every filled slot.
pub fn search(frame: &Frame<'_>, table: &Table<'_>, state: State, allowance: u64) -> Searched
    ensures returned { result ≡ returned state (record { lent_data = data_in frame.now table.now; allowance = allowance }) }
    ensures says { reply_says result ≡ search_call state (lent_by (record { lent_data = data_in frame.now table.now; allowance = allowance })) }
{
    match search_questions::questions_1_to_7::first_seven(frame, table) {
        Err(question) => Searched {
            answer: Err(question),
            state,
        },
        Ok(()) => go(frame, table, state, allowance),
    }
}
