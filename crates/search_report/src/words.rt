// The parts that the lines of a report are made of, each to be written as it stands in a line.

use std::fmt;
use undivided_run::state::{State, Status};

// A number and what it counts: `one` after 1, `many` after any other number.
#[derive(Clone, Copy)]
pub struct Count(pub u64, pub &'static str, pub &'static str);

impl fmt::Display for Count {
    fn fmt<W: fmt::Write>(&self, f: &mut fmt::Formatter<W>) -> fmt::Result {
        let Count(n, one, many) = *self;
        write!(f, "{n} {}", if n == 1 { one } else { many })
    }
}

// Numbers, with a space before each.
#[derive(Clone, Copy)]
pub struct Row<'a>(pub &'a [u32]);

impl fmt::Display for Row<'_> {
    fn fmt<W: fmt::Write>(&self, f: &mut fmt::Formatter<W>) -> fmt::Result {
        for n in self.0 {
            write!(f, " {n}")?;
        }
        Ok(())
    }
}

// How many combinations were tried and reads made.
#[derive(Clone, Copy)]
pub struct Counts(pub State);

impl fmt::Display for Counts {
    fn fmt<W: fmt::Write>(&self, f: &mut fmt::Formatter<W>) -> fmt::Result {
        let tried = Count(self.0.patterns, "combination", "combinations");
        let made = Count(self.0.reads, "read", "reads");
        write!(f, "{tried}, {made}")
    }
}

// A field of view in radians, written to four decimals and in degrees to one, each rounded to nearest in f32.
#[derive(Clone, Copy)]
pub struct Field(pub f32);

impl fmt::Display for Field {
    fn fmt<W: fmt::Write>(&self, f: &mut fmt::Formatter<W>) -> fmt::Result {
        let n = numeric::truncate::truncate(self.0 * 10000.0 + 0.5) as u64;
        let tenths = numeric::truncate::truncate(self.0 * 572.95776 + 0.5) as u64;
        let (rad, below) = (n / 10000, n % 10000);
        let (degrees, tenth) = (tenths / 10, tenths % 10);
        write!(f, "{rad}.{below:04} rad ({degrees}.{tenth} degrees)")
    }
}

// How a search ended, in words.
#[derive(Clone, Copy)]
pub struct Ending(pub Status);

impl fmt::Display for Ending {
    fn fmt<W: fmt::Write>(&self, f: &mut fmt::Formatter<W>) -> fmt::Result {
        f.write_str(match self.0 {
            Status::TooFew => "TooFew (fewer than 4 kept)",
            Status::NoMatch => "NoMatch (no candidate confirmed)",
            Status::Timeout => "Timeout (cap on combinations reached)",
        })
    }
}
