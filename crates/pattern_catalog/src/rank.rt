// A slot of the table: whether it is filled, and the place of its entry, which is the rank of the slot's block plus the ones below the slot in it.
ghost use Rattle.std.specs.Prelude.{◌≡◌, ◌+◌, ◌*◌, ◌/◌, ◌%◌, ◌^◌, ◌≤◌, ◌<◌, length, eqb};
ghost use Rattle.pattern_catalog.specs.Answers.{found_says};
ghost use Rattle.pattern_catalog.specs.Blocks.{filled, place};
ghost use Rattle.pattern_catalog.specs.Rank.{ranked_at};
ghost use Rattle.pattern_catalog.specs.SlotPlace.{found_by, PlaceKnown};
ghost use Rattle.pattern_catalog.specs.SlotRead.{slot_in};

use crate::count_ones::{Block, ones_below};
use question::Question;

// Returns bit b of a word, where bit 0 is the lowest.
fn bit(w: u64, b: u32) -> bool
    requires { b < 64 }
    ensures { result ≡ eqb (w / 2 ^ b % 2) 1 }
{
    (w >> b) % 2 == 1
}

// Returns what the read of a filled slot finds: the place of its entry, or a refusal with question 9 where the place is outside the section.
fn placed(place: Option<u64>) -> Result<Option<u64>, Question>
    ensures { found_says result ≡ found_by place }
{
    let inside = place.ok_or(Question::EntryAndStars)?;
    Ok(Some(inside))
}

// A slot of a table, by its number, with all words of its block among these.
#[derive(Clone, Copy)]
pub struct TableSlot<'a> {
    pub words: &'a [u64],
    pub slot: usize,
    ghost inside: { slot / 448 * 8 + 8 ≤ length words.now },
}

impl TableSlot<'_> {
    // Tells whether the slot is filled.
    pub fn is_filled(&self) -> bool
        ensures { result ≡ filled self.now.words.now self.now.slot }
    {
        let at = self.slot / 448 * 8 + 1 + self.slot % 448 / 64;
        bit(self.words[at], (self.slot % 64) as u32)
    }

    // Returns the place of the slot's entry, which is the block's rank plus the ones below the slot in the block, if it is below the number of
    // entries.
    pub fn block_rank(&self, entries: u64) -> Option<u64>
        ensures { result ≡ ranked_at self.now.words.now self.now.slot entries }
    {
        let block = Block {
            words: self.words,
            number: self.slot / 448,
        };
        let rank = block.rank();
        let below = block.ones_below_slot(self.slot % 448);
        if rank >= entries {
            return None;
        }
        if below >= entries - rank {
            return None;
        }
        Some(rank + below)
    }

    // Returns the place of the slot's entry, counted on from that of the slot `from`, which is in the same word and not after this one.
    // Kept: `from` and `there` apart, here, below and in fast_path, since what holds of them is said of this slot too, and one test of `from` also
    // tells that no place is known.
    pub fn near_rank(&self, entries: u64, from: usize, there: u64) -> Option<u64>
        requires { (from ≤ self.now.slot) × (from / 64 ≡ self.now.slot / 64) × (there ≡ place self.now.words.now from) × (there < 9223372036854775808) }
        ensures { result ≡ ranked_at self.now.words.now self.now.slot entries }
    {
        let at = self.slot / 448 * 8 + 1 + self.slot % 448 / 64;
        let w = self.words[at] >> (from % 64) as u32;
        let here = there + ones_below(w, (self.slot - from) as u32);
        if here >= entries {
            return None;
        }
        Some(here)
    }

    // Reads the slot: gives the place of its entry, or none where it is empty. If the slot is filled, it asks question 9 for the section.
    pub fn find_in(&self, packed: &[u8]) -> Result<Option<u64>, Question>
        ensures { found_says result ≡ slot_in self.now.words.now packed.now self.now.slot }
    {
        if !self.is_filled() {
            return Ok(None);
        }
        let entries = (packed.len() / 22) as u64;
        placed(self.block_rank(entries))
    }

    // Returns the place of the slot's entry, counted on from the place of the slot `from` where both are in one word.
    fn rank_from(&self, entries: u64, from: usize, there: u64) -> Option<u64>
        requires { PlaceKnown self.now.words.now 9223372036854775808 self.now.slot from there }
        ensures { result ≡ ranked_at self.now.words.now self.now.slot entries }
    {
        if from <= self.slot && from / 64 == self.slot / 64 {
            return self.near_rank(entries, from, there);
        }
        self.block_rank(entries)
    }

    // Reads the slot like `find_in`, but is given the place `there` of the slot `from`, which is used if that slot is in the same word and not
    // after this one.
    pub fn find_near(&self, packed: &[u8], from: usize, there: u64) -> Result<Option<u64>, Question>
        requires { PlaceKnown self.now.words.now (length packed.now / 22) self.now.slot from there }
        ensures { found_says result ≡ slot_in self.now.words.now packed.now self.now.slot }
    {
        if !self.is_filled() {
            return Ok(None);
        }
        let entries = (packed.len() / 22) as u64;
        placed(self.rank_from(entries, from, there))
    }
}
