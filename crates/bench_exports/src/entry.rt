// A C function that gives the entry which a slot read hands back, for the comparison with Rust. The catalogue's other calls are in `star_search`.
ghost use Rattle.std.specs.Prelude.{◌≡◌};
ghost use Rattle.pattern_catalog.specs.SlotRead.{slot_read, section_part};
ghost use Rattle.bench_exports.specs.Numbers.{raw_entry, raw_of};

use pattern_entry::entry::PatternEntry;

// An entry as plain numbers: its four stars, its largest edge and its mark.
#[repr(C)]
#[derive(Clone, Copy)]
pub struct RawEntry {
    pub star0: u32,
    pub star1: u32,
    pub star2: u32,
    pub star3: u32,
    pub edge: f32,
    pub mark: u32,
}

impl From<PatternEntry> for RawEntry {
    ghost from_gives = { λ e n. n ≡ raw_of e };

    // Returns an entry as plain numbers.
    fn from(e: PatternEntry) -> RawEntry {
        let s = e.stars;
        RawEntry {
            star0: s[0].0,
            star1: s[1].0,
            star2: s[2].0,
            star3: s[3].0,
            edge: e.edge,
            mark: e.mark as u32,
        }
    }
}

// Returns the entry of a slot; all its numbers are zero where the slot is empty or the slot read is refused.
#[unsafe(no_mangle)]
pub extern "C" fn catalog_entry(slots: u64, words: &[u64], packed: &[u8], slot: u64) -> RawEntry
    ensures { result ≡ raw_entry (section_part packed.now (slot_read slots words.now packed.now slot)) }
{
    RawEntry::from(pattern_entry::entry::read_packed(pattern_catalog::slot_read::entry_of(
        slots, words, packed, slot,
    )))
}
