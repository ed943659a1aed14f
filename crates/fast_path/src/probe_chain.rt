// Goes along one key's chain over reads that give no candidate: those of an empty slot, or of a valid entry with another mark. It stops before
// any other read, which is left to the single read of search_feed: that one asks question 9 and makes all the tests.
ghost use Rattle.std.specs.Prelude.{◌≡◌, true, ◌+◌, ◌*◌, ◌/◌, ◌≤◌, ◌<◌, length};
ghost use Rattle.pattern_catalog.specs.Blocks.{table_fits};
ghost use Rattle.pattern_entry.specs.Entry.{bytes_at};
ghost use Rattle.pattern_catalog.specs.SlotPlace.{PlaceKnown};
ghost use Rattle.fast_path.specs.ValidStars.{ValidBelow};
ghost use Rattle.fast_path.specs.SlotPeek.{is_valid_mismatch, peek_of, PassedInside};
ghost use Rattle.fast_path.specs.ProbeChain.{along_chain};

use pattern_catalog::rank::TableSlot;
use pattern_entry::entry::PackedEntry;
use search_feed::lent::Table;

// A table that is whole, and the number below which every star of it is valid.
#[derive(Clone, Copy)]
pub struct KnownTable<'a> {
    pub table: Table<'a>,
    pub valid: u32,
    ghost whole: { table_fits table.slots table.words.now ≡ true },
    ghost below: { ValidBelow table.stars.now valid },
}

// What is seen at a slot.
#[derive(Clone, Copy)]
pub enum SlotPeek {
    // The slot is empty.
    Empty,
    // The slot's entry, at this place of the packed section, is valid and has another mark.
    Passed(u64),
    // The slot is left to the single read.
    Stop,
}

// How far the reads along a chain went, with what is left of the allowance.
#[derive(Clone, Copy)]
pub enum ChainResult {
    // The chain is over. The probe is that of its last read.
    Over { probe: u32, left: u64 },
    // The chain goes on. The probe is that of the next read, which isn't made.
    Stops { probe: u32, left: u64 },
}

// Returns whether the entry at a place of the packed section is valid and has another mark.
fn is_valid_mismatch(known: &KnownTable<'_>, mark: u16, place: u64) -> bool
    requires { place * 22 + 22 ≤ length known.now.table.packed.now }
    ensures { result ≡ is_valid_mismatch known.now.table.stars.now mark (bytes_at known.now.table.packed.now place) }
{
    let entry = PackedEntry {
        packed: known.table.packed,
        place,
    };
    if entry.mark() == mark {
        return false;
    }
    if entry.indices_below(known.valid) {
        return true;
    }
    entry.is_valid(known.table.stars)
}

// Looks at a slot and returns what is seen there, with the place of its entry where that is passed over. Where slot `from` isn't past this
// slot, `there` is the place of the entry of slot `from`, from which the place of this slot's entry can be counted on.
fn peek_slot(known: &KnownTable<'_>, mark: u16, slot: u64, from: u64, there: u64) -> SlotPeek
    requires { (slot / 448 * 8 + 8 ≤ length known.now.table.words.now) × PlaceKnown known.now.table.words.now (length known.now.table.packed.now / 22) slot from there }
    ensures { (result ≡ peek_of known.now.table.words.now known.now.table.packed.now known.now.table.stars.now mark slot) × PassedInside known.now.table.packed.now result }
{
    let at = TableSlot {
        words: known.table.words,
        slot: slot as usize,
    };
    match at.find_near(known.table.packed, from as usize, there) {
        Ok(None) => SlotPeek::Empty,
        Err(_) => SlotPeek::Stop,
        Ok(Some(place)) => {
            if is_valid_mismatch(known, mark, place) {
                return SlotPeek::Passed(place);
            }
            SlotPeek::Stop
        }
    }
}

// Goes along the chain with this home slot from probe `from` on, as long as its reads give no candidate and the allowance lasts.
pub fn probe_chain(
    known: &KnownTable<'_>,
    home: u64,
    mark: u16,
    from: u32,
    allowance: u64,
) -> ChainResult
    requires { (home < known.now.table.slots) × (from < known.now.table.slots) }
    ensures { result ≡ along_chain known.now.table.words.now known.now.table.packed.now known.now.table.stars.now known.now.table.slots home mark allowance from }
{
    // A copy of the struct: the loop would load its fields anew at each probe through the reference.
    let known = *known;
    // A chain has as many probes as there are slots.
    let probes = known.table.slots;
    let reads = allowance.min(probes - from as u64);
    let end = from + reads as u32;
    let mut last = known.table.slots;
    let mut there: u64 = 0;
    for c in from..end {
        let slot = undivided_run::probing::probe_slot(home, c, known.table.slots);
        let left = allowance - (c - from) as u64;
        match peek_slot(&known, mark, slot, last, there) {
            SlotPeek::Stop => return ChainResult::Stops { probe: c, left },
            SlotPeek::Empty => {
                return ChainResult::Over {
                    probe: c,
                    left: left - 1,
                };
            }
            SlotPeek::Passed(place) => {
                last = slot;
                there = place;
            }
        }
    }
    let left = allowance - reads;
    if (end as u64) < probes {
        return ChainResult::Stops { probe: end, left };
    }
    ChainResult::Over {
        probe: end - 1,
        left,
    }
}
