// Reads the records of a replay stream: a record's kind, the first words of its payload, and the arrays of a table or a frame.

ghost use Rattle.std.specs.Prelude.{◌≡◌, true, IfOk};
ghost use Rattle.stream.specs.Kind.{number_of};
ghost use Rattle.stream.specs.Words.{room_for};
ghost use Rattle.stream.specs.NextRecord.{Fits};

use crate::broken::Broken;
use crate::kind::Kind;
use crate::lent::Lent;
use crate::reading::{fill, fill_bytes, next_head, next_words, pass_over};
use crate::words::{Words, padding};
use std::io::Read;

impl Lent {
    // Reads the three arrays of a table whose payload begins with the words w; the bytes are padded to a multiple of 4.
    fn fill_table<R: Read>(&mut self, input: &mut R, w: Words) -> Result<(), Broken>
        ensures { self.new.inputs ≡ self.old.inputs }
    {
        fill(input, &mut self.words, w[1] as usize)?;
        fill_bytes(input, &mut self.packed, w[2] as usize)?;
        pass_over(input, padding(w[2]))?;
        fill(input, &mut self.stars, w[3] as usize)
    }

    // Reads the three arrays of a frame whose payload begins with the words w.
    fn fill_frame<R: Read>(&mut self, input: &mut R, w: Words) -> Result<(), Broken>
        ensures { self.new.inputs ≡ self.old.inputs }
    {
        fill(input, &mut self.centroids, w[0] as usize)?;
        fill(input, &mut self.order, w[1] as usize)?;
        fill(input, &mut self.passes, w[2] as usize)
    }

    // Reads the arrays of a payload that begins with the words w, where its kind has any.
    fn fill_arrays<R: Read>(&mut self, input: &mut R, kind: Kind, w: Words) -> Result<(), Broken>
        ensures { self.new.inputs ≡ self.old.inputs }
    {
        match kind {
            Kind::Table => self.fill_table(input, w),
            Kind::Frame => self.fill_frame(input, w),
            _ => Ok(()),
        }
    }
}

// Reads the words that a payload of this kind and length begins with, and returns them with the number of bytes to be passed over after its
// arrays. It fails where the kind is unknown, the payload is too short for its words and arrays, or the lent arrays have no room for them.
fn payload<R: Read>(input: &mut R, kind: Kind, length: u32) -> Result<(Words, u64), Broken>
    ensures { IfOk result (λ p. room_for (number_of kind) p.0 ≡ true) }
{
    let words = next_words(input, kind.payload_words())?;
    if !kind.has_room(words) {
        return Err(Broken);
    }
    let rest = u64::from(length)
        .checked_sub(kind.payload_size(words))
        .ok_or(Broken)?;
    Ok((words, rest))
}

// Reads the next record of the stream, if there is one: its kind and the first words of its payload. Its arrays go to the lent arrays;
// the inputs stay as they were, also where it fails.
pub fn next_record<R: Read>(input: &mut R, lent: &mut Lent) -> Result<Option<(Kind, Words)>, Broken>
    ensures fits { Fits result }
    ensures inputs { lent.new.inputs ≡ lent.old.inputs }
{
    let Some((number, length)) = next_head(input)? else {
        return Ok(None);
    };
    let kind = Kind::from(number);
    let (words, rest) = payload(input, kind, length)?;
    lent.fill_arrays(input, kind, words)?;
    pass_over(input, rest)?;
    Ok(Some((kind, words)))
}
