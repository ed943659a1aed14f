// The key of five ratios, and the hash, the home slot and the mark of a key.
ghost use Rattle.std.specs.Prelude.{◌≡◌, ◌+◌, ◌*◌, ◌<◌, ◌≤◌};
ghost use Rattle.pattern.specs.Key.{key_of, hash_of, home_of, mark_of, Parts};
ghost use Rattle.numeric.specs.KeyPart.{part_of};

// Returns one part of a key: the ratio times bins, cut to a whole number.
fn key_part(r: f32, bins: u32) -> u32
    ensures { result ≡ part_of r bins }
{
    numeric::truncate::truncate(r * std::num::nearest_u32_to_f32(bins))
}

// Returns the key of five ratios.
pub fn compute_pattern_key(r: [f32; 5], bins: u32) -> [u32; 5]
    ensures { result ≡ key_of r bins }
{
    r.map(|x| key_part(x, bins))
}

// Does one step of a hash, which is worked out from its highest power down: h goes up by one power of bins, and the next part is added.
fn above(h: u64, bins: u32, part: u32) -> u64
    requires { (h < 1125899906842624) × (bins ≤ 4096) × (part ≤ 4096) }
    ensures { (result ≡ h * bins + part) × (result ≤ h * 4096 + 4096) }
{
    h * bins as u64 + part as u64
}

// Returns the hash of a key: the sum of part i times bins^i, which is below 2^62.
// Kept: written out, each call's bound follows from the call before it; in a fold each turn would need a bound by its number.
// Kept: that no part is above bins is a clause, since a key is five plain numbers that loops work out part by part.
pub fn compute_pattern_key_hash(k: [u32; 5], bins: u32) -> u64
    requires { Parts k bins }
    ensures { result ≡ hash_of k bins }
{
    let d = above(k[4] as u64, bins, k[3]);
    let c = above(d, bins, k[2]);
    let b = above(c, bins, k[1]);
    above(b, bins, k[0])
}

// Returns the home slot of a hash.
pub fn hash_to_index(hash: u64, slots: u64) -> u64
    requires { 0 < slots }
    ensures { result ≡ home_of hash slots }
{
    numeric::wrapping::wrapping_mul(hash, 2654435761) % slots
}

// Returns the mark of a hash: its low 16 bits.
pub fn mark_of(hash: u64) -> u16
    ensures { result ≡ mark_of hash }
{
    (hash % 65536) as u16
}
