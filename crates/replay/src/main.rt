// Reads a recorded stream from standard input, makes the calls that its records ask for, and writes a line for each answer.
#![tactic(auto)]

mod answering;
mod lines;

use crate::answering::answer;
use crate::lines::stream_line;
use stream::broken::BrokenAt;
use stream::walk::each_record;

// Answers the records of the stream one after another, and writes the number of the first that can't be read.
fn main(rt: HostRuntime) {
    let mut input = rt.reader();
    let answered = each_record(&mut input, |_, record, lent| answer(&rt, record, lent));
    if let Err(BrokenAt(n)) = answered {
        stream_line(&rt, n);
    }
}
