// Question 9 for a packed entry: the entry has all its bytes, and its four stars are valid.
ghost use Rattle.std.specs.Prelude.{◌≡◌};
ghost use Rattle.pattern_entry.specs.Entry.{bytes_at};
ghost use Rattle.pattern_entry.specs.Validity.{entry_valid};
ghost use Rattle.pattern_entry.specs.ValidityShortcuts.{indices_below};

use crate::entry::{PackedEntry, star_indices};
use crate::stars::star_valid;

// Asks question 9 for the bytes of an entry: there are 22 of them, and the four stars are valid.
fn entry_valid(stars: &[f32], e: &[u8]) -> bool
    ensures { result ≡ entry_valid stars.now e.now }
{
    e.len() == 22 && star_indices(e).iter().all(|i| star_valid(stars, *i))
}

// Tells whether the four star indices of an entry's bytes are below n.
fn indices_below(e: &[u8], n: u32) -> bool
    ensures { result ≡ indices_below n e.now }
{
    star_indices(e).iter().all(|i| i.0 < n)
}

impl PackedEntry<'_> {
    // Asks question 9 for the entry.
    pub fn is_valid(&self, stars: &[f32]) -> bool
        ensures { result ≡ entry_valid stars.now (bytes_at self.now.packed.now self.now.place) }
    {
        entry_valid(stars, self.bytes())
    }

    // Tells whether the entry's four star indices are below n.
    pub fn indices_below(&self, n: u32) -> bool
        ensures { result ≡ indices_below n (bytes_at self.now.packed.now self.now.place) }
    {
        indices_below(self.bytes(), n)
    }
}
