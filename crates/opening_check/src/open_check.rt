// The opening check of a pattern table: questions 6, 7 and 10, then 9 over all filled slots.
ghost use Rattle.std.specs.Prelude.{◌≡◌, ◌+◌, ◌*◌, ◌/◌, ◌≤◌, ◌<◌, length};
ghost use Rattle.question.specs.Question.{refused_by};
ghost use Rattle.opening_check.specs.OpenCheck.{tail_clear, index_right, opening};
ghost use Rattle.opening_check.specs.Shortcuts.{ranks_read, all_valid};

use pattern_catalog::blocks::table_fits;
use pattern_catalog::count_ones::Block;
use pattern_entry::entry::PackedEntry;
use pattern_entry::stars::{every_star_valid, stars_fit};
use question::Question;

// Returns the number of ones of all blocks, or none where some rank is not the number of ones before its block.
fn ranks_of(words: &[u64], blocks: usize) -> Option<u64>
    requires { (blocks * 8 ≤ length words.now) × (blocks < 65536) }
    ensures { result ≡ ranks_read words.now blocks }
{
    let mut seen: u64 = 0;
    for b in 0..blocks {
        let block = Block { words, number: b };
        if block.rank() != seen {
            return None;
        }
        seen += block.ones_in(448);
    }
    Some(seen)
}

// Tells whether the bits after the last slot are clear: the last block has no ones but those of its slots.
fn tail_clear(words: &[u64], slots: usize) -> bool
    requires { (length words.now ≡ (slots + 447) / 448 * 8) × (slots ≤ 16777216) }
    ensures { result ≡ tail_clear words.now slots }
{
    let rest = slots % 448;
    if rest == 0 {
        return true;
    }
    let last = Block {
        words,
        number: slots / 448,
    };
    last.ones_in(448) == last.ones_in(rest)
}

// Asks question 10: every rank is right, every bit after the last slot is clear, and the section has exactly 22 bytes for each one.
fn index_right(slots: usize, words: &[u64], packed: &[u8]) -> bool
    requires { (length words.now ≡ (slots + 447) / 448 * 8) × (slots ≤ 16777216) }
    ensures { result ≡ index_right slots words.now packed.now }
{
    let Some(n) = ranks_of(words, words.len() / 8) else {
        return false;
    };
    if !tail_clear(words, slots) {
        return false;
    }
    packed.len() as u64 == n * 22
}

// Tells whether the first n packed entries are valid. Where every star of the slice is valid, only the entries' star indices are tested.
fn valid_to(packed: &[u8], stars: &[f32], n: u64) -> bool
    requires { (n * 22 ≤ length packed.now) × (length stars.now ≤ 3145728) }
    ensures { result ≡ all_valid packed.now stars.now n }
{
    if every_star_valid(stars) {
        let count = (stars.len() / 3) as u32;
        return (0..n).all(|p| PackedEntry::new(packed, p).indices_below(count));
    }
    (0..n).all(|p| PackedEntry::new(packed, p).is_valid(stars))
}

// The opening check of a table: refuses it with the first question that is answered no.
// Kept: slices apart, since Table is in a crate above; so it is with the slot read.
pub fn open_check(slots: u64, words: &[u64], packed: &[u8], stars: &[f32]) -> Result<(), Question>
    ensures { refused_by result ≡ opening slots words.now packed.now stars.now }
{
    if !table_fits(slots, words) {
        return Err(Question::SlotsAndWords);
    }
    if !stars_fit(stars) {
        return Err(Question::StarSlice);
    }
    if !index_right(slots as usize, words, packed) {
        return Err(Question::RanksAndSection);
    }
    if !valid_to(packed, stars, (packed.len() / 22) as u64) {
        return Err(Question::EntryAndStars);
    }
    Ok(())
}
