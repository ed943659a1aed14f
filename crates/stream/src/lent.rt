// What a recorded stream is read into, and the parts of its arrays that are in use.
ghost use Rattle.std.specs.Prelude.{◌≡◌};
ghost use Rattle.std.specs.Float.{binary32};
ghost use Rattle.std.specs.Float.Ieee.{of_bits};
ghost use Rattle.stream.specs.Lent.{room, first_of};
ghost use Rattle.stream.specs.Records.{at_start};

use crate::inputs::start;
use crate::records::Inputs;
use search_feed::lent::{Frame, Table};

// What a stream is read into: the inputs that its records have set so far, and the arrays of a table (block words, packed section and star
// slice) and of a frame (centroids, brightness list and passes), with the room that the format allows.
// Kept: arrays, and how much of each is in use in `inputs`, since the programs keep to the rule of no heap.
#[derive(Drop)]
pub struct Lent {
    pub inputs: Inputs,
    pub words: [u64; 2560],
    pub packed: [u8; 1500000],
    pub stars: [f32; 200000],
    pub centroids: [f32; 640],
    pub order: [u32; 320],
    pub passes: [f32; 900],
}

// Returns the first n elements of a lent slice, or none where it is shorter.
#[tactic(auto, unfolding(crate::specs::Lent::first_of))]
pub fn first_of<T>(lent: &[T], n: u32) -> &[T]
    ensures { result.now ≡ first_of n lent.now }
{
    lent.get(..n as usize).unwrap_or(&[])
}

impl Lent {
    // Returns the inputs at the start, and the arrays as they are before a record fills them: all zero.
    #[tactic(auto, unfolding(crate::specs::Lent::room))]
    pub fn new() -> Lent
        ensures inputs { result.inputs ≡ at_start }
        ensures words { result.words ≡ room 2560 0 }
        ensures packed { result.packed ≡ room 1500000 0 }
        ensures stars { result.stars ≡ room 200000 (of_bits binary32 0) }
        ensures centroids { result.centroids ≡ room 640 (of_bits binary32 0) }
        ensures order { result.order ≡ room 320 0 }
        ensures passes { result.passes ≡ room 900 (of_bits binary32 0) }
    {
        Lent {
            inputs: start(),
            words: [0; 2560],
            packed: [0; 1500000],
            stars: [0.0; 200000],
            centroids: [0.0; 640],
            order: [0; 320],
            passes: [0.0; 900],
        }
    }

    // Returns the block words of the table.
    pub fn words(&self) -> &[u64]
        ensures { result.now ≡ first_of self.now.inputs.table.words self.now.words }
    {
        first_of(&self.words, self.inputs.table.words)
    }

    // Returns the packed section of the table.
    pub fn packed(&self) -> &[u8]
        ensures { result.now ≡ first_of self.now.inputs.table.packed self.now.packed }
    {
        first_of(&self.packed, self.inputs.table.packed)
    }

    // Returns the star slice of the table.
    pub fn stars(&self) -> &[f32]
        ensures { result.now ≡ first_of self.now.inputs.table.stars self.now.stars }
    {
        first_of(&self.stars, self.inputs.table.stars)
    }

    // Returns the centroids of the frame.
    pub fn centroids(&self) -> &[f32]
        ensures { result.now ≡ first_of self.now.inputs.frame.centroids self.now.centroids }
    {
        first_of(&self.centroids, self.inputs.frame.centroids)
    }

    // Returns the brightness list of the frame.
    pub fn order(&self) -> &[u32]
        ensures { result.now ≡ first_of self.now.inputs.frame.order self.now.order }
    {
        first_of(&self.order, self.inputs.frame.order)
    }

    // Returns the passes of the frame.
    pub fn passes(&self) -> &[f32]
        ensures { result.now ≡ first_of self.now.inputs.frame.passes self.now.passes }
    {
        first_of(&self.passes, self.inputs.frame.passes)
    }

    // Returns the frame of a search.
    pub fn frame(&self) -> Frame<'_>
        ensures centroids { result.centroids.now ≡ first_of self.now.inputs.frame.centroids self.now.centroids }
        ensures order { result.order.now ≡ first_of self.now.inputs.frame.order self.now.order }
        ensures config { result.config ≡ self.now.inputs.config }
        ensures passes { result.passes.now ≡ first_of self.now.inputs.frame.passes self.now.passes }
    {
        Frame {
            centroids: self.centroids(),
            order: self.order(),
            config: self.inputs.config,
            passes: self.passes(),
        }
    }

    // Returns the table of a search.
    pub fn table(&self) -> Table<'_>
        ensures slots { result.slots ≡ self.now.inputs.table.slots }
        ensures words { result.words.now ≡ first_of self.now.inputs.table.words self.now.words }
        ensures packed { result.packed.now ≡ first_of self.now.inputs.table.packed self.now.packed }
        ensures stars { result.stars.now ≡ first_of self.now.inputs.table.stars self.now.stars }
    {
        Table {
            slots: self.inputs.table.slots,
            words: self.words(),
            packed: self.packed(),
            stars: self.stars(),
        }
    }
}
