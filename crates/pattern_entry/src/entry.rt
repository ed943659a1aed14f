// The packed entries of the pattern table, of 22 bytes each: four star indices, the largest edge and the mark.
ghost use Rattle.std.specs.Prelude.{◌≡◌, ◌+◌, ◌*◌, ◌≤◌, ◌<◌, length, get_or};
ghost use Rattle.pattern_entry.specs.Entry.{word_at, half_at, mark_in, entry_read, bytes_at};
ghost use Rattle.pattern_entry.specs.StarIndices.{stars_read};

use crate::stars::StarIndex;

// An entry of the packed section.
#[derive(Clone, Copy)]
pub struct PatternEntry {
    pub stars: [StarIndex; 4],
    // The largest edge of the stored pattern, an angle in radians.
    pub edge: f32,
    // The low 16 bits of the hash of the stored pattern's key.
    pub mark: u16,
}

// Returns byte i, or 0 where the bytes end before it.
fn byte(e: &[u8], i: usize) -> u8
    ensures { result ≡ get_or e.now i 0 }
{
    e.get(i).copied().unwrap_or(0)
}

// Returns the u32 that begins at byte `at`. Where all four bytes are there, one test suffices.
pub fn word(e: &[u8], at: usize) -> u32
    ensures { result ≡ word_at e.now at }
{
    let rest = e.get(at..).unwrap_or(&[]);
    if let [a, b, c, d, ..] = rest {
        return u32::from_le_bytes([*a, *b, *c, *d]);
    }
    u32::from_le_bytes([byte(rest, 0), byte(rest, 1), byte(rest, 2), byte(rest, 3)])
}

// Returns the u16 that begins at byte `at`.
fn half(e: &[u8], at: usize) -> u16
    requires { at < 22 }
    ensures { result ≡ half_at e.now at }
{
    u16::from_le_bytes([byte(e, at), byte(e, at + 1)])
}

// Returns the four star indices that the bytes hold.
pub fn star_indices(e: &[u8]) -> [StarIndex; 4]
    ensures { result ≡ stars_read e.now }
{
    [0, 4, 8, 12].map(|at| StarIndex(word(e, at)))
}

// Returns the entry that the bytes hold. Its edge may be a NaN.
pub fn read_packed(e: &[u8]) -> PatternEntry
    ensures { result ≡ entry_read e.now }
{
    PatternEntry {
        stars: star_indices(e),
        edge: numeric::bits::from_bits(word(e, 16)),
        mark: half(e, 20),
    }
}

// An entry by its place in the packed section, with all its bytes inside the section.
#[derive(Clone, Copy)]
pub struct PackedEntry<'a> {
    pub packed: &'a [u8],
    pub place: u64,
    ghost inside: { place * 22 + 22 ≤ length packed.now },
}

impl<'a> PackedEntry<'a> {
    // Returns the entry at a place. A closure takes over what a call requires, but would have to write it for a struct expression.
    pub fn new(packed: &'a [u8], place: u64) -> PackedEntry<'a>
        requires { place * 22 + 22 ≤ length packed.now }
        ensures { (result.packed.now ≡ packed.now) × (result.place ≡ place) }
    {
        PackedEntry { packed, place }
    }

    // Returns the entry's bytes.
    pub fn bytes(&self) -> &'a [u8]
        ensures { result.now ≡ bytes_at self.now.packed.now self.now.place }
    {
        let at = self.place as usize * 22;
        &self.packed[at..at + 22]
    }

    // Returns the entry's mark.
    pub fn mark(&self) -> u16
        ensures { result ≡ mark_in (bytes_at self.now.packed.now self.now.place) }
    {
        let at = self.place as usize * 22 + 20;
        u16::from_le_bytes([self.packed[at], self.packed[at + 1]])
    }
}
