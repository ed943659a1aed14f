// What is said of a stream that can't be read.
use std::error::Error;
use std::{fmt, io};

// A record that can't be read: it is larger than the arrays have room for, its kind, phase or status is unknown, or it is cut short.
#[derive(Clone, Copy, Debug, PartialEq, Eq)]
pub struct Broken;

// The number of the record from which on a stream can't be read, counted from 0.
#[derive(Clone, Copy, Debug, PartialEq, Eq)]
pub struct BrokenAt(pub u64);

// A record whose bytes a stream doesn't give is cut short.
impl From<io::Error> for Broken {
    fn from(_error: io::Error) -> Broken {
        Broken
    }
}

impl fmt::Display for BrokenAt {
    fn fmt<W: fmt::Write>(&self, f: &mut fmt::Formatter<W>) -> fmt::Result {
        write!(f, "the stream can't be read from record {} on", self.0)
    }
}

impl Error for BrokenAt {}
