// Writes the answers to standard output, a line for each. A line that can't be written is left out.
use candidates::entry_tests::Candidate;
use complete::completing::Completed;
use numeric::bits::to_bits;
use pattern_catalog::slot_read::Slot;
use pattern_search::{Answer, Searched};
use question::Question;
use std::fmt;
use undivided_run::state::Status;

// Numbers, with a space before each.
// Kept: search_report has the same as `Row`, but below the two are only crates that are burned in.
#[derive(Clone, Copy)]
struct Numbers([u32; 4]);

impl fmt::Display for Numbers {
    fn fmt<W: fmt::Write>(&self, f: &mut fmt::Formatter<W>) -> fmt::Result {
        for n in &self.0 {
            write!(f, " {n}")?;
        }
        Ok(())
    }
}

// The bits of floats as 8 hexadecimal digits each, with a space before each.
#[derive(Clone, Copy)]
struct Bits<'a>(&'a [f32]);

impl fmt::Display for Bits<'_> {
    fn fmt<W: fmt::Write>(&self, f: &mut fmt::Formatter<W>) -> fmt::Result {
        for x in self.0 {
            let bits = to_bits(*x);
            write!(f, " {bits:08x}")?;
        }
        Ok(())
    }
}

// Bytes as two hexadecimal digits each.
#[derive(Clone, Copy)]
struct Bytes<'a>(&'a [u8]);

impl fmt::Display for Bytes<'_> {
    fn fmt<W: fmt::Write>(&self, f: &mut fmt::Formatter<W>) -> fmt::Result {
        for b in self.0 {
            write!(f, "{b:02x}")?;
        }
        Ok(())
    }
}

// The bits of the components of four directions.
#[derive(Clone, Copy)]
struct Rows([[f32; 3]; 4]);

impl fmt::Display for Rows {
    fn fmt<W: fmt::Write>(&self, f: &mut fmt::Formatter<W>) -> fmt::Result {
        for row in &self.0 {
            let bits = Bits(row);
            write!(f, "{bits}")?;
        }
        Ok(())
    }
}

// A candidate, from its pass to its rebuild mark.
#[derive(Clone, Copy)]
struct Shown(Candidate);

impl fmt::Display for Shown {
    fn fmt<W: fmt::Write>(&self, f: &mut fmt::Formatter<W>) -> fmt::Result {
        let c = self.0;
        let places = Numbers(c.places.map(|p| p.0));
        let stars = Numbers(c.stars.map(|s| s.0));
        let field = to_bits(c.field);
        let mark = u8::from(c.rebuild);
        write!(
            f,
            "candidate {}{places} slot {} stars{stars} field {field:08x} mark {mark}",
            c.pass, c.slot
        )
    }
}

// Returns the name of a status.
// Kept: limits has these names too; see there.
fn name_of(status: Status) -> &'static str {
    match status {
        Status::TooFew => "toofew",
        Status::NoMatch => "nomatch",
        Status::Timeout => "timeout",
    }
}

// What a call answered, and the counts of its state.
#[derive(Clone, Copy)]
struct Line(Searched);

impl fmt::Display for Line {
    fn fmt<W: fmt::Write>(&self, f: &mut fmt::Formatter<W>) -> fmt::Result {
        let Line(searched) = *self;
        match searched.answer {
            Ok(Answer::Candidate(c)) => write!(f, "{}", Shown(c))?,
            Ok(Answer::AllowanceUsed) => write!(f, "used")?,
            Ok(Answer::Ended(status)) => write!(f, "ended {}", name_of(status))?,
            Err(question) => write!(f, "refused {}", u32::from(question))?,
        }
        let state = searched.state;
        write!(f, " patterns {} reads {}", state.patterns, state.reads)
    }
}

// Writes the line of a refusal, with the number of the question.
fn refusal_line(rt: &impl Print, question: Question) {
    let n = u32::from(question);
    let _ = println!(rt; "refused {n}");
}

// Writes the line of a record that can't be read: `stream` and its number.
pub fn stream_line(rt: &impl Print, n: u64) {
    let _ = println!(rt; "stream {n}");
}

// Writes a call's line.
pub fn call_line(rt: &impl Print, searched: Searched) {
    let line = Line(searched);
    let _ = println!(rt; "{line}");
}

// Writes the line of the opening check.
pub fn open_line(rt: &impl Print, opened: Result<(), Question>) {
    match opened {
        Ok(()) => {
            let _ = println!(rt; "open passed");
        }
        Err(question) => refusal_line(rt, question),
    }
}

// Writes the line of a slot read, with the entry's bytes where the slot is filled.
pub fn slot_line(rt: &impl Print, found: Result<Slot, Question>, entry: &[u8]) {
    match found {
        Ok(Slot::Filled) => {
            let bytes = Bytes(entry);
            let _ = println!(rt; "filled {bytes}");
        }
        Ok(Slot::Empty) => {
            let _ = println!(rt; "empty");
        }
        Err(question) => refusal_line(rt, question),
    }
}

// Writes the line of a sweep, with the values that were written to the lent slice v.
pub fn sweep_line(rt: &impl Print, swept: Result<u64, Question>, v: &[f32]) {
    match swept {
        Ok(n) => {
            let values = Bits(v.get(..n as usize).unwrap_or(&[]));
            let _ = println!(rt; "sweep {n}{values}");
        }
        Err(question) => refusal_line(rt, question),
    }
}

// Writes the line of completing a candidate.
pub fn complete_line(rt: &impl Print, completed: Result<Completed, Question>) {
    match completed {
        Ok(c) => {
            let (image, stars) = (Rows(c.image), Rows(c.stars));
            let _ = println!(rt; "complete{image}{stars}");
        }
        Err(question) => refusal_line(rt, question),
    }
}
