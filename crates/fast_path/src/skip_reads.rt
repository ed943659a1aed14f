// Goes over the reads of a combination that give no candidate, key after key, each along its chain. The entries passed over are valid and
// give no candidate, and the reads lead on to a read of the same combination.
ghost use Rattle.std.specs.Prelude.{◌≡◌, ◌+◌, ◌-◌, ◌≤◌, ◌<◌, length, take};
ghost use Rattle.fast_path.specs.SkipReads.{skipped_reads};

use crate::probe_chain::{ChainResult, KnownTable};
use pattern_catalog::rank::TableSlot;
use std::ops::ControlFlow;

// Where skipping ends: the key and probe of the next read of the combination, and what is left of the allowance.
#[derive(Clone, Copy)]
pub struct SkipResult {
    pub key: u32,
    pub probe: u32,
    pub left: u64,
}

// A key whose home slot is filled, and that slot.
#[derive(Clone, Copy)]
struct FilledKey {
    key: u32,
    home: u32,
}

// The reads of a combination: its keys, as many as `keys`, with their hashes, and the table.
#[derive(Clone, Copy)]
struct Reads<'a, 'b> {
    keys: u32,
    hashes: &'a [u64; 1024],
    known: KnownTable<'b>,
    ghost few: { keys ≤ 1024 },
}

impl Reads<'_, '_> {
    ghost use Rattle.fast_path.specs.SkipStep.{home_at, FilledKeys, SkipStep, KeyStep};

    // Returns the home slot of key k.
    // Kept: that k is a key, and below that a probe is below the slot count, are clauses, as for an index; a struct of them would be made for each key.
    fn home(&self, k: u32) -> u32
        requires { (k < self.now.keys) × (0 < self.now.known.table.slots) }
        ensures { (result ≡ home_at self.now k) × (result < self.now.known.table.slots) }
    {
        pattern::key::hash_to_index(self.hashes[k as usize], self.known.table.slots) as u32
    }

    // Goes over the reads of key k from a probe on along its chain. Where the chain is over and k isn't the last key, it returns what is left of the
    // allowance. The last read of the last key isn't made: skipping ends at it. `home` is the key's home slot.
    fn skip_key(
        &self,
        k: u32,
        probe: u32,
        home: u32,
        allowance: u64,
    ) -> ControlFlow<SkipResult, u64>
        requires { (k < self.now.keys) × (probe < self.now.known.table.slots) × (home ≡ home_at self.now k) }
        ensures { KeyStep self.now k probe allowance result }
    {
        let mark = pattern::key::mark_of(self.hashes[k as usize]);
        match crate::probe_chain::probe_chain(&self.known, home as u64, mark, probe, allowance) {
            ChainResult::Stops { probe, left } => ControlFlow::Break(SkipResult {
                key: k,
                probe,
                left,
            }),
            ChainResult::Over { probe, left } => {
                if self.keys <= k + 1 {
                    return ControlFlow::Break(SkipResult {
                        key: k,
                        probe,
                        left: left + 1,
                    });
                }
                ControlFlow::Continue(left)
            }
        }
    }

    // Writes those of the keys from `from` to before `to` whose home slot is filled to `found`, and returns their count. What stands after them
    // is left open: each key is written, and only counted where its home slot is filled, which takes no branch.
    // Kept: fills an array and returns a count, since there is no heap.
    fn filled_keys(&self, from: u32, to: u32, found: &mut [FilledKey; 16]) -> usize
        requires { (from ≤ to) × (to ≤ from + 16) × (to ≤ self.now.keys) × (0 < self.now.known.table.slots) }
        ensures { (result ≤ 16) × FilledKeys self.now from to (take result found.new) }
    {
        let mut m = 0;
        for key in from..to {
            let home = self.home(key);
            found[m] = FilledKey { key, home };
            let slot = TableSlot {
                words: self.known.table.words,
                slot: home as usize,
            };
            m += slot.is_filled() as usize;
        }
        m
    }

    // Goes over the reads of the keys from k to before `end`, from probe c of key k on. The keys found go along their chains; every other key takes
    // one read, since its home slot is empty. The last read of the combination's last key isn't made. Where c isn't 0, the key k is found, and alone.
    fn skip_found(
        &self,
        k: u32,
        c: u32,
        end: u32,
        found: &[FilledKey],
        allowance: u64,
    ) -> ControlFlow<SkipResult, (u32, u64)>
        requires { (k < end) × (end ≤ self.now.keys) × (c < self.now.known.table.slots) × FilledKeys self.now k end found.now × (0 < c → (end ≡ k + 1) × (length found.now ≡ 1)) }
        ensures { SkipStep self.now k c allowance result }
    {
        let mut at = k;
        let mut left = allowance;
        for f in found {
            let Some(over) = left.checked_sub((f.key - at) as u64) else {
                return ControlFlow::Break(SkipResult {
                    key: at + left as u32,
                    probe: 0,
                    left: 0,
                });
            };
            left = self.skip_key(f.key, c, f.home, over)?;
            at = f.key + 1;
        }
        let last = end.min(self.keys - 1);
        let Some(over) = left.checked_sub((last - at) as u64) else {
            return ControlFlow::Break(SkipResult {
                key: at + left as u32,
                probe: 0,
                left: 0,
            });
        };
        if end < self.keys {
            return ControlFlow::Continue((end, over));
        }
        ControlFlow::Break(SkipResult {
            key: last,
            probe: 0,
            left: over,
        })
    }

    // Makes one step over the reads from key k and probe c on: over up to sixteen keys where c is 0, else over key k alone.
    fn skip_step(&self, k: u32, c: u32, allowance: u64) -> ControlFlow<SkipResult, (u32, u64)>
        requires { (k < self.now.keys) × (c < self.now.known.table.slots) }
        ensures { SkipStep self.now k c allowance result }
    {
        if c != 0 {
            let home = self.home(k);
            let found = [FilledKey { key: k, home }];
            return self.skip_found(k, c, k + 1, &found, allowance);
        }
        let end = self.keys.min(k + 16);
        let mut found = [FilledKey { key: 0, home: 0 }; 16];
        let m = self.filled_keys(k, end, &mut found);
        self.skip_found(k, 0, end, &found[..m], allowance)
    }
}

// Goes over the reads of a combination from a key and probe on, key after key, as long as they give no candidate and the allowance lasts.
// The combination's last read is never made here: the single read makes it and works out what comes after it.
// Kept: the hashes apart, since this crate doesn't stand on search_cache, of whose Cache they are the one array that is read here.
pub fn skip_reads(
    key: u32,
    probe: u32,
    keys: u32,
    hashes: &[u64; 1024],
    known: &KnownTable<'_>,
    allowance: u64,
) -> SkipResult
    requires { (key < keys) × (keys ≤ 1024) × (probe < known.now.table.slots) }
    ensures { result ≡ skipped_reads known.now.table.words.now known.now.table.packed.now known.now.table.stars.now known.now.table.slots hashes.now (keys - (key + 1)) key probe allowance }
{
    let reads = Reads {
        keys,
        hashes,
        known: *known,
    };
    let mut k = key;
    let mut c = probe;
    let mut left = allowance;
    loop {
        match reads.skip_step(k, c, left) {
            ControlFlow::Break(end) => return end,
            ControlFlow::Continue((next, after)) => {
                k = next;
                c = 0;
                left = after;
            }
        }
    }
}
