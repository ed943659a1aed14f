// The slot read of the pattern table, by the slot's number: the place of the slot's entry, whether the slot is filled, and the entry's own bytes.
ghost use Rattle.std.specs.Prelude.{◌≡◌, ◌+◌, ◌*◌, ◌≤◌, length};
ghost use Rattle.pattern_catalog.specs.Answers.{found_says, slot_says};
ghost use Rattle.pattern_catalog.specs.SlotRead.{slot_read, section_part, part_start};

use crate::blocks::table_fits;
use crate::rank::TableSlot;
use question::Question;

// What a slot holds.
#[derive(Clone, Copy)]
pub enum Slot {
    Filled,
    Empty,
}

// The slot read: it asks questions 6 and 11, and then 9 for the section only.
pub fn find(slots: u64, words: &[u64], packed: &[u8], slot: u64) -> Result<Option<u64>, Question>
    ensures { found_says result ≡ slot_read slots words.now packed.now slot }
{
    if !table_fits(slots, words) {
        return Err(Question::SlotsAndWords);
    }
    if slot >= slots {
        return Err(Question::SlotNumber);
    }
    let at = TableSlot {
        words,
        slot: slot as usize,
    };
    at.find_in(packed)
}

// Tells what the slot holds.
pub fn slot_of(slots: u64, words: &[u64], packed: &[u8], slot: u64) -> Result<Slot, Question>
    ensures { slot_says words.now slot result ≡ slot_read slots words.now packed.now slot }
{
    match find(slots, words, packed, slot)? {
        Some(_) => Ok(Slot::Filled),
        None => Ok(Slot::Empty),
    }
}

// The entry's own 22 bytes of the lent section, or an empty part of it.
// The part is empty unless the slot read finds the slot filled.
pub fn entry_of<'a>(slots: u64, words: &[u64], packed: &'a [u8], slot: u64) -> &'a [u8]
    ensures bytes { result.now ≡ section_part packed.now (slot_read slots words.now packed.now slot) }
    ensures place { (result.ref_ptr.0 ≡ packed.entry.ref_ptr.0) × (result.ref_ptr.1 ≡ part_start (slot_read slots words.now packed.now slot) + packed.entry.ref_ptr.1) }
{
    match find(slots, words, packed, slot) {
        Ok(Some(p)) => {
            let a = p as usize * 22;
            let e = a + 22;
            &packed[a..e]
        }
        Ok(None) => &packed[0..0],
        Err(_) => &packed[0..0],
    }
}
