// The first words of a payload: how many a kind has, how long they say the payload is, and whether its arrays have room.
ghost use Rattle.std.specs.Prelude.{◌≡◌, ◌≤◌};
ghost use Rattle.stream.specs.Kind.{number_of};
ghost use Rattle.stream.specs.Words.{long_of, words_of, padding_of, table_size, frame_size, size_of, three_fit, room_for};

use crate::kind::Kind;

// The first words of a payload; words that it doesn't have are 0.
pub type Words = [u32; 13];

// Returns the u64 of two words.
pub fn long_of(low: u32, high: u32) -> u64
    ensures { result ≡ long_of low high }
{
    u64::from(low) + u64::from(high) * 0x1_0000_0000
}

// Returns how many zero bytes pad n bytes to a multiple of 4.
pub fn padding(n: u32) -> u64
    ensures { result ≡ padding_of n }
{
    (4 - u64::from(n) % 4) % 4
}

// Returns the length in bytes of a table's payload with these counts.
fn table_size(longs: u32, bytes: u32, floats: u32) -> u64
    ensures { result ≡ table_size longs bytes floats }
{
    16 + u64::from(longs) * 8 + u64::from(bytes) + padding(bytes) + u64::from(floats) * 4
}

// Returns the length in bytes of a frame's payload with these counts.
fn frame_size(centroids: u32, order: u32, passes: u32) -> u64
    ensures { result ≡ frame_size centroids order passes }
{
    12 + u64::from(centroids) * 4 + u64::from(order) * 4 + u64::from(passes) * 4
}

// Returns whether the counts a, b and c are at most x, y and z.
fn three_fit(a: u32, b: u32, c: u32, x: u32, y: u32, z: u32) -> bool
    ensures { result ≡ three_fit a b c x y z }
{
    a <= x && b <= y && c <= z
}

impl Kind {
    // Returns how many words a payload has before its arrays; for an unknown kind 14, more than any kind has.
    #[tactic(auto, unfolding(crate::specs::Words::words_of))]
    pub fn payload_words(self) -> usize
        ensures { (result ≡ words_of (number_of self)) × (result ≤ 14) }
    {
        match self {
            Kind::Table => 4,
            Kind::Frame => 3,
            Kind::Settings | Kind::State => 13,
            Kind::Fresh | Kind::Open => 0,
            Kind::Call | Kind::Run | Kind::Slot => 2,
            Kind::Sweep => 5,
            Kind::Complete => 12,
            Kind::Unknown => 14,
        }
    }

    // Returns the length in bytes of a payload that begins with the words w.
    #[tactic(auto, unfolding(crate::specs::Words::size_of))]
    pub fn payload_size(self, w: Words) -> u64
        ensures { result ≡ size_of (number_of self) w }
    {
        match self {
            Kind::Table => table_size(w[1], w[2], w[3]),
            Kind::Frame => frame_size(w[0], w[1], w[2]),
            _ => self.payload_words() as u64 * 4,
        }
    }

    // Returns whether the kind is known and the arrays have room for the counts in the words.
    #[tactic(auto, unfolding(crate::specs::Words::room_for))]
    pub fn has_room(self, w: Words) -> bool
        ensures { result ≡ room_for (number_of self) w }
    {
        match self {
            Kind::Table => three_fit(w[1], w[2], w[3], 2560, 1500000, 200000),
            Kind::Frame => three_fit(w[0], w[1], w[2], 640, 320, 900),
            _ => self.payload_words() <= 13,
        }
    }
}
