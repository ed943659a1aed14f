// The blocks of a table, of 8 words each: a rank and 7 words of occupancy for 448 slots. Tells whether a table has all its blocks.
ghost use Rattle.std.specs.Prelude.{◌≡◌};
ghost use Rattle.pattern_catalog.specs.Blocks.{table_fits};

// Asks question 6: there are at most 2^24 slots, and 8 words for each begun block of 448.
pub fn table_fits(slots: u64, words: &[u64]) -> bool
    ensures { result ≡ table_fits slots words.now }
{
    slots <= 16777216 && words.len() as u64 == slots.div_ceil(448) * 8
}
