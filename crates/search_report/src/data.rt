// What a search is lent, and one call of it.
ghost use Rattle.std.specs.Prelude.{◌≡◌};
ghost use Rattle.search_report.specs.Calls.{lent, called};

use pattern_search::Searched;
use search_feed::lent::{Frame, Table};
use undivided_run::state::State;

// What a search is lent: a frame and a table.
#[derive(Clone, Copy)]
pub struct Data<'a> {
    pub frame: Frame<'a>,
    pub table: Table<'a>,
}

impl Data<'_> {
    // Makes one call of the search from a state, with an allowance of reads.
    pub fn call(&self, state: State, allowance: u64) -> Searched
        ensures { result ≡ called (lent self.now) state allowance }
    {
        pattern_search::search(&self.frame, &self.table, state, allowance)
    }
}
