// The order of the 32 codes around a code, and the list of the valid codes' hashes in that order.
ghost use Rattle.std.specs.Prelude.{◌≡◌, [], ◌∷◌, ◌+◌, ◌-◌, ◌≤◌, ◌<◌, get_or};
ghost use Rattle.pattern_keys.specs.Codes.{code_of, chosen, Pairs};
ghost use Rattle.pattern_keys.specs.CodeOrder.{unpack, ones, twos, codes_around};
ghost use Rattle.pattern_keys.specs.TwoValuesSteps.{Put};

// For each code, the five codes that differ from it in one part, in order. They are packed five bits each, the first lowest.
const ONES: [u64; 32] = [
    17043521, 18125920, 19208288, 20290625, 21371040, 22453377, 23534722, 24615075, 25569568,
    26651905, 27733250, 28813603, 29832452, 30912805, 31961414, 32978279, 25840160, 26922497,
    28003842, 29084195, 30103044, 31183397, 32232006, 33248871, 30238216, 31318569, 32367178,
    33384043, 32432780, 33449645, 33450702, 32435951,
];

// For each code, the ten codes that differ from it in two parts, in order. They are packed like those of ONES.
const TWOS: [u64; 32] = [
    867052305029283,
    903369509313666,
    939653426584705,
    975904056842400,
    1010090892336193,
    1046341522593888,
    1081526968456288,
    1115647229923393,
    1014626377896001,
    1050877008090208,
    1086062453889120,
    1120182715292737,
    1088263622531232,
    1122383883934849,
    1122419283860610,
    1088369822308515,
    1014633061421121,
    1050883624572000,
    1086067995646048,
    1120186174643265,
    1088266951858336,
    1122385130855553,
    1122418416884866,
    1088366809946275,
    1088366809852192,
    1122418416856321,
    1122385130892546,
    1088266951960867,
    1120186174747908,
    1086067995816229,
    1050883624776006,
    1014633061627239,
];

// Returns the code of the key c, for ranges with the lower ends lo.
// Kept: five bits with their weights, written out as they stand in the code; a fold over pairs says no more.
pub fn code_of(c: [u32; 5], lo: [u32; 5], hi: [u32; 5], bins: u32) -> u64
    requires { Pairs c lo hi bins }
    ensures { (result ≡ code_of c lo) × (result < 32) }
{
    let p = (c[0] - lo[0]) as u64;
    let q = (c[1] - lo[1]) as u64;
    let s = (c[2] - lo[2]) as u64;
    let t = (c[3] - lo[3]) as u64;
    let u = (c[4] - lo[4]) as u64;
    p * 16 + q * 8 + s * 4 + t * 2 + u
}

// Returns the packed codes that differ from c in one, two, three and four of the five parts. Those that differ from c in three and in four parts
// differ from the opposite code in two and in one.
fn around(c: u64) -> [u64; 4]
    requires { c < 32 }
    ensures { result ≡ get_or ones c 0 ∷ get_or twos c 0 ∷ get_or twos (31 - c) 0 ∷ get_or ones (31 - c) 0 ∷ [] }
{
    let near = c as usize;
    let opposite = 31 - near;
    [ONES[near], TWOS[near], TWOS[opposite], ONES[opposite]]
}

// Unpacks `count` codes from `word` and adds the sums of those that are valid to the m values of `out`. Returns the new number of values.
// The value after these may be overwritten.
// Kept: fills an array and returns a count, since there is no heap.
fn add(
    word: u64,
    count: u64,
    valid: u32,
    sums: &[u64; 32],
    out: &mut [u64; 1024],
    m: usize,
) -> usize
    requires { m + count < 1024 }
    ensures { Put out.old out.new m result (chosen sums.now valid (unpack word count)) × (result ≤ m + count) }
{
    let mut n = m;
    let mut w = word;
    for _ in 0..count {
        let code = w % 32;
        w /= 32;
        out[n] = sums[code as usize];
        if (valid >> code as u32) % 2 == 1 {
            n += 1;
        }
    }
    n
}

// Writes to `out` the sums of the valid codes, in the order around c, and returns their count.
// Kept: six calls one after another, since a loop over the six packed lists would have to say which of them are done.
pub fn listed(c: u64, valid: u32, sums: &[u64; 32], out: &mut [u64; 1024]) -> usize
    requires { c < 32 }
    ensures { Put out.old out.new 0 result (chosen sums.now valid (codes_around c)) }
{
    let w = around(c);
    let opposite = 31 - c;
    let p = add(c, 1, valid, sums, out, 0);
    let q = add(w[0], 5, valid, sums, out, p);
    let s = add(w[1], 10, valid, sums, out, q);
    let t = add(w[2], 10, valid, sums, out, s);
    let u = add(w[3], 5, valid, sums, out, t);
    add(opposite, 1, valid, sums, out, u)
}
