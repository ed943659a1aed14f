// The search state, and how a position in the search moves on. A position names one read of the table: its pass, combination, key number and
// probe number. The undivided run and the calls on it are in specs/.
ghost use Rattle.std.specs.Prelude.{◌≡◌, ◌<◌};
ghost use Rattle.std.specs.Result.{result_ok};
ghost use Rattle.undivided_run.specs.Undivided.{reached};
ghost use Rattle.undivided_run.specs.StatusNumber.{status_number, status_of};
ghost use Rattle.undivided_run.specs.Step.{start, count_tried, phase_of};
ghost use Rattle.undivided_run.specs.Moves.{first_of, probed, keyed, at_key, to_combination};

use combinations::Combination;

// The status that ends a run: Timeout where the cap was reached, TooFew where the last pass keeps fewer than 4 spots, else NoMatch.
#[derive(Clone, Copy)]
pub enum Status {
    TooFew,
    NoMatch,
    Timeout,
}

// A number that no status has.
#[derive(Clone, Copy)]
pub struct UnknownStatus;

impl From<Status> for u32 {
    ghost from_gives = { λ status n. n ≡ status_number status };

    // Returns the number of a status.
    fn from(status: Status) -> u32 {
        match status {
            Status::TooFew => 0,
            Status::NoMatch => 1,
            Status::Timeout => 2,
        }
    }
}

impl TryFrom<u32> for Status {
    type Error = UnknownStatus;

    ghost try_from_gives = { λ n status. result_ok status ≡ status_of n };

    // Returns the status with this number.
    #[tactic(auto, unfolding(crate::specs::StatusNumber::status_of))]
    fn try_from(number: u32) -> Result<Status, UnknownStatus> {
        match number {
            0 => Ok(Status::TooFew),
            1 => Ok(Status::NoMatch),
            2 => Ok(Status::Timeout),
            _ => Err(UnknownStatus),
        }
    }
}

// One read of the table: probe number `probe` of key number `key` of the combination `four` of pass number `pass`.
#[derive(Clone, Copy)]
pub struct Position {
    pub pass: u32,
    pub four: Combination,
    pub key: u32,
    pub probe: u32,
}

// The next read, or the status that ends the run.
// Kept: not a Result, since the end of a run is an answer and no failure, and a ControlFlow would say the same in std's words, which are no plainer.
#[derive(Clone, Copy)]
pub enum Next {
    Goes(Position),
    Ends(Status),
}

// The phase of a search between two calls: fresh, ended with its status, or at its next read.
#[derive(Clone, Copy)]
pub enum Phase {
    Fresh,
    Ended(Status),
    At(Position),
}

// The search state, which goes into each call and comes back changed: the phase, the combinations tried (`patterns`) and the reads made.
#[derive(Clone, Copy)]
pub struct State {
    pub phase: Phase,
    pub patterns: u64,
    pub reads: u64,
}

// What a call holds between two reads: its next read or the status that ends the run, and the same two counts as the state.
#[derive(Clone, Copy)]
pub struct Cursor {
    pub next: Next,
    pub patterns: u64,
    pub reads: u64,
}

// Returns whether the cap is reached by the combinations tried so far. The cap is the most combinations that a run may try, where there is such
// a limit.
#[tactic(auto, unfolding(crate::specs::Undivided::reached))]
pub fn reached(cap: Option<u64>, tried: u64) -> bool
    ensures { result ≡ reached cap tried }
{
    cap.is_some_and(|most| most <= tried)
}

impl Next {
    // Returns the first read of a combination, or Timeout where the cap is reached before it.
    pub fn to_combination(cap: Option<u64>, tried: u64, pass: u32, four: Combination) -> Next
        ensures { result ≡ to_combination cap tried pass four }
    {
        if reached(cap, tried) {
            return Next::Ends(Status::Timeout);
        }
        Next::Goes(Position::first_of(pass, four))
    }
}

impl State {
    // Returns the state of a search that has not begun.
    pub fn fresh() -> State
        ensures { result ≡ start }
    {
        State {
            phase: Phase::Fresh,
            patterns: 0,
            reads: 0,
        }
    }
}

impl Position {
    // Returns the first read of the combination `four` of pass number `pass`.
    pub fn first_of(pass: u32, four: Combination) -> Position
        ensures { result ≡ first_of pass four }
    {
        Position {
            pass,
            four,
            key: 0,
            probe: 0,
        }
    }

    // Returns the next probe of the same key.
    pub fn next_probe(mut self) -> Position
        requires { self.probe < 16777216 }
        ensures { result ≡ probed self }
    {
        self.probe = self.probe + 1;
        self
    }

    // Returns the first probe of the next key of the same combination.
    pub fn next_key(mut self) -> Position
        requires { self.key < 1024 }
        ensures { result ≡ keyed self }
    {
        self.key = self.key + 1;
        self.probe = 0;
        self
    }

    // Returns another read of the same combination, at this key number and this probe number.
    pub fn at_key(mut self, key: u32, probe: u32) -> Position
        ensures { result ≡ at_key self key probe }
    {
        self.key = key;
        self.probe = probe;
        self
    }

    // Returns how many combinations are tried once this read is made, `patterns` before it: one more where it is its combination's first read.
    // Kept: that counts are below 2^63 is a clause, here, in search_step and in pattern_search: a step adds one, after which a field would not have it.
    #[tactic(auto, unfolding(crate::specs::Step::count_tried, crate::specs::Undivided::starts, crate::specs::Undivided::is_zero))]
    pub fn count(self, patterns: u64) -> u64
        requires { patterns < 9223372036854775808 }
        ensures { result ≡ count_tried self patterns }
    {
        if self.probe == 0 && self.key == 0 {
            patterns + 1
        } else {
            patterns
        }
    }
}

impl Cursor {
    // Returns the state that a call gives back if it stops here.
    #[tactic(auto, unfolding(crate::specs::Step::phase_of))]
    pub fn state(self) -> State
        ensures { result ≡ record { phase = phase_of self.next; patterns = self.patterns; reads = self.reads } }
    {
        let phase = match self.next {
            Next::Goes(p) => Phase::At(p),
            Next::Ends(s) => Phase::Ended(s),
        };
        State {
            phase,
            patterns: self.patterns,
            reads: self.reads,
        }
    }
}
