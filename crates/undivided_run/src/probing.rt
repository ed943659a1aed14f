// The slot that a probe of a key reads.
ghost use Rattle.std.specs.Prelude.{◌≡◌, ◌+◌, ◌*◌, ◌%◌, ◌≤◌, ◌<◌};

// Returns the slot that probe number c reads, given the home slot of its key. It divides only where the sum goes past the last slot.
// Kept: that there are at most 2^24 slots is a clause, here and in three other functions, since the count comes as a number of its own.
pub fn probe_slot(home: u64, c: u32, slots: u64) -> u64
    requires { (home < slots) × (slots ≤ 16777216) × (c < slots) }
    ensures { (result ≡ (home + c * c) % slots) × (result < slots) }
{
    let wide = c as u64;
    let sum = home + wide * wide;
    if sum < slots {
        return sum;
    }
    sum % slots
}
