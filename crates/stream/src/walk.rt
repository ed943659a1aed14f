// Goes over the records of a stream, one after another.
use crate::broken::{Broken, BrokenAt};
use crate::lent::Lent;
use crate::next_record::next_record;
use crate::records::{Record, record_of};
use std::io::Read;
use undivided_run::state::State;

// Reads the next record, if there is one, and has it answered. Returns whether there was one.
fn answer_next<R: Read, F: FnMut(u64, &Record, &Lent) -> Result<State, Broken>>(
    input: &mut R,
    lent: &mut Lent,
    n: u64,
    answer: &mut F,
) -> Result<bool, Broken>
    requires { F.IsAlwaysCallable answer.old }
    ensures { F.IsAlwaysCallable answer.new }
{
    let Some(next) = next_record(input, lent)? else {
        return Ok(false);
    };
    let (kind, words) = next;
    let record = record_of(kind, words, lent.inputs)?;
    lent.inputs = record.inputs;
    lent.inputs.state = answer(n, &record, lent)?;
    Ok(true)
}

// Reads record after record and has each answered: `answer` is given the record's number, its effect and what is lent after it, and returns the
// state that it leaves. A stream has fewer than 2^64 records. It fails at the first record that can't be read or answered.
pub fn each_record<R: Read, F: FnMut(u64, &Record, &Lent) -> Result<State, Broken>>(
    input: &mut R,
    mut answer: F,
) -> Result<(), BrokenAt>
    requires { F.IsAlwaysCallable answer }
{
    let mut lent = Lent::new();
    for n in 0..u64::MAX {
        match answer_next(input, &mut lent, n, &mut answer) {
            Ok(true) => {}
            Ok(false) => break,
            Err(Broken) => return Err(BrokenAt(n)),
        }
    }
    Ok(())
}
