// A block of the table: its rank, and the ones among its slots.
ghost use Rattle.std.specs.Prelude.{◌≡◌, ◌+◌, ◌*◌, ◌%◌, ◌^◌, ◌≤◌, ◌<◌, length};
ghost use Rattle.std.specs.Int.Count.{ones};
ghost use Rattle.pattern_catalog.specs.Blocks.{ones_in, rank_of};

// Returns the number of ones of a word.
fn count_ones(w: u64) -> u64
    ensures { (result ≡ ones w) × (result ≤ 64) }
{
    u64::from(w.count_ones())
}

// Returns the number of ones among the bits of a word below bit b.
pub fn ones_below(w: u64, b: u32) -> u64
    requires { b < 64 }
    ensures { (result ≡ ones (w % 2 ^ b)) × (result ≤ 64) }
{
    let p = 1u64 << b;
    count_ones(w % p)
}

// The six values from index 6 - q on are the masks for the first six words of a block where the first q of them count.
const COUNTED: [u64; 12] = [
    0xffff_ffff_ffff_ffff,
    0xffff_ffff_ffff_ffff,
    0xffff_ffff_ffff_ffff,
    0xffff_ffff_ffff_ffff,
    0xffff_ffff_ffff_ffff,
    0xffff_ffff_ffff_ffff,
    0,
    0,
    0,
    0,
    0,
    0,
];

// A block of a table, by its number, with all its words among these.
#[derive(Clone, Copy)]
pub struct Block<'a> {
    pub words: &'a [u64],
    pub number: usize,
    ghost inside: { number * 8 + 8 ≤ length words.now },
}

impl Block<'_> {
    // Returns the block's rank, which is its first word.
    pub fn rank(&self) -> u64
        ensures { result ≡ rank_of self.now.words.now self.now.number }
    {
        self.words[self.number * 8]
    }

    // Returns the number of ones among the first n slots: in whole words first, and then in what is left of n.
    pub fn ones_in(&self, n: usize) -> u64
        requires { n ≤ 448 }
        ensures { result ≡ ones_in self.now.words.now (self.now.number * 448) n }
    {
        let first = self.number * 8 + 1;
        let whole = n / 64;
        let mut sum = 0;
        for k in 0..whole {
            sum += count_ones(self.words[first + k]);
        }
        if whole == 7 {
            return sum;
        }
        sum + ones_below(self.words[first + whole], (n % 64) as u32)
    }

    // Returns the number of ones in the first q words. It looks at six words whatever q is, since a processor can't predict where a loop up to
    // q ends.
    fn ones_in_whole_words(&self, q: usize) -> u64
        requires { q ≤ 6 }
        ensures { (result ≡ ones_in self.now.words.now (self.now.number * 448) (q * 64)) × (result ≤ 384) }
    {
        let first = self.number * 8 + 1;
        let masks = COUNTED;
        let mut sum = 0;
        for k in 0..6 {
            sum += count_ones(self.words[first + k] & masks[6 - q + k]);
        }
        sum
    }

    // Returns the number of ones below slot n of the block.
    pub fn ones_below_slot(&self, n: usize) -> u64
        requires { n < 448 }
        ensures { result ≡ ones_in self.now.words.now (self.now.number * 448) n }
    {
        let at = self.number * 8 + 1 + n / 64;
        self.ones_in_whole_words(n / 64) + ones_below(self.words[at], (n % 64) as u32)
    }
}
