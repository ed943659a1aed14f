// The codes that stand for keys in the ranges whose parts never fall: a word with a bit for each of the 32 codes.
ghost use Rattle.std.specs.Prelude.{◌≡◌};
ghost use Rattle.pattern_keys.specs.ValidCodes.{masked, ranged_of, valid_of};

// For each part, the codes that are at its lower end.
const AT_LOWER_END: [u32; 5] = [
    0x0000_ffff,
    0x00ff_00ff,
    0x0f0f_0f0f,
    0x3333_3333,
    0x5555_5555,
];

// For each part but the last, the codes that are not above its lower end while they are at the lower end of the next part.
const NOT_FALLING: [u32; 4] = [0xff00_ffff, 0xf0ff_f0ff, 0xcfcf_cfcf, 0xbbbb_bbbb];

// Returns v where the test is false, and those codes of v that mask has too where it is true.
fn keep(v: u32, test: bool, mask: u32) -> u32
    ensures { result ≡ masked v test mask }
{
    if test { v & mask } else { v }
}

// Returns the codes that are at the lower end in each part whose range has one value.
fn in_ranges(lo: [u32; 5], hi: [u32; 5]) -> u32
    ensures { result ≡ ranged_of lo hi }
{
    let mut v = u32::MAX;
    for i in 0..5 {
        v = keep(v, lo[i] == hi[i], AT_LOWER_END[i]);
    }
    v
}

// Returns those of these codes whose parts never fall. Where two neighbouring parts have the same lower end, the left part must not be
// above it while the right part is at it.
pub fn codes_in(lo: [u32; 5], hi: [u32; 5]) -> u32
    ensures { result ≡ valid_of lo hi }
{
    let mut v = in_ranges(lo, hi);
    for i in 0..4 {
        v = keep(v, lo[i] == lo[i + 1], NOT_FALLING[i]);
    }
    v
}
