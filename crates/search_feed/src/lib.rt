// The settings of a search (SearchConfig) and one read of the table (read_slot). What the undivided run is fed is in specs/Feed.antt.
#![tactic(auto)]

ghost use Rattle.std.specs.Prelude.{◌≡◌, true, ◌+◌, ◌*◌, ◌%◌, ◌≤◌, ◌<◌, get_or};
ghost use Rattle.pattern_catalog.specs.Blocks.{table_fits};
ghost use Rattle.pattern_entry.specs.Entry.{bytes_at};
ghost use Rattle.pattern.specs.Key.{home_of};
ghost use Rattle.search_feed.specs.TableRead.{places_in, made_candidate, evaluated_entry, table_read};

pub mod lent;

use crate::lent::Table;
use candidates::entry_tests::{Candidate, Image};
use combinations::Combination;
use pattern_catalog::rank::TableSlot;
use pattern_entry::entry::PackedEntry;
use pattern_entry::stars::StarIndex;
use preprocess::brightness_list::Place;
use question::Question;
use settings::tolerance::Tolerance;
use undivided_run::state::Position;

// The settings of a search. In the source's names: pattern_bins, pattern_checking_stars, pattern_max_error, match_radius,
// match_max_error, fov_max_error_rad, max_patterns_checked, num_patterns.
#[derive(Clone, Copy)]
pub struct SearchConfig {
    pub bins: u32,
    pub checking: u32,
    pub error: f32,
    pub radius: f32,
    pub matching: Tolerance,
    pub fov: Tolerance,
    pub cap: Option<u64>,
    pub patterns: u64,
}

// What one read sees of a slot that question 9 lets through.
#[derive(Clone, Copy)]
pub enum ReadOutcome {
    // The slot is empty.
    Empty,
    // The slot's entry gives no candidate.
    Passed,
    // The slot's entry gives this candidate.
    Found(Candidate),
}

// The slot of probe number c of the key with this hash: (home + c·c) modulo the slot count.
fn slot_of_probe(hash: u64, c: u32, slots: u64) -> u64
    requires { (0 < slots) × (slots ≤ 16777216) × (c < slots) }
    ensures { (result ≡ (home_of hash slots + c * c) % slots) × (result < slots) }
{
    undivided_run::probing::probe_slot(pattern::key::hash_to_index(hash, slots), c, slots)
}

// The places of a combination in the brightness list.
// Kept: four by name, since a map, as candidates/src/star_vectors.rt has one, needs a clause in its closure and a longer proof.
fn places_at(places: &[Place; 64], q: Combination) -> [Place; 4]
    requires { (q.a < 64) × (q.b < 64) × (q.c < 64) × (q.d < 64) }
    ensures { result ≡ places_in places.now q }
{
    let a = places[q.a as usize];
    let b = places[q.b as usize];
    let c = places[q.c as usize];
    let d = places[q.d as usize];
    [a, b, c, d]
}

// What the tests make of a valid entry.
fn make_candidate(
    measured: Option<f32>,
    pass: u32,
    places: [Place; 4],
    slot: u64,
    stars: [StarIndex; 4],
    field: f32,
    radius: f32,
) -> ReadOutcome
    ensures { result ≡ made_candidate measured pass places slot stars field radius }
{
    let Some(f) = measured else {
        return ReadOutcome::Passed;
    };
    let rebuild = candidates::comparisons::needs_rebuild(f, field, radius);
    ReadOutcome::Found(Candidate {
        pass,
        places,
        slot,
        stars,
        field: f,
        rebuild,
    })
}

// A filled slot: question 9 of its entry, then the tests.
fn evaluate_entry(
    entry: &PackedEntry<'_>,
    slot: u64,
    hash: u64,
    four: [Place; 4],
    pass: u32,
    image: Image,
    config: SearchConfig,
    field: f32,
    stars: &[f32],
) -> Result<ReadOutcome, Question>
    requires { config.bins ≤ 4096 }
    ensures { result ≡ evaluated_entry (bytes_at entry.now.packed.now entry.now.place) slot hash four pass image config field stars.now }
{
    if !entry.is_valid(stars) {
        return Err(Question::EntryAndStars);
    }
    let read = pattern_entry::entry::read_packed(entry.bytes());
    let own = config.matching;
    let e = settings::tolerance::max_error(own, config.error, config.bins);
    let fov = config.fov;
    let measured = candidates::entry_tests::test_entry(
        read,
        pattern::key::mark_of(hash),
        stars,
        image,
        e,
        field,
        fov,
    );
    let indices = read.stars;
    Ok(make_candidate(measured, pass, four, slot, indices, field, config.radius))
}

// One read of the table, for a combination that shows this image.
// Kept: the places and the hashes apart, since the cache that holds them is in a crate above this one.
pub fn read_slot(
    p: Position,
    image: Image,
    places: &[Place; 64],
    hashes: &[u64; 1024],
    config: SearchConfig,
    field: f32,
    table: &Table<'_>,
) -> Result<ReadOutcome, Question>
    requires { (p.key < 1024) × (p.probe < table.now.slots) × (p.four.a < 64) × (p.four.b < 64) × (p.four.c < 64) × (p.four.d < 64) × (config.bins ≤ 4096) × (table_fits table.now.slots table.now.words.now ≡ true) }
    ensures { result ≡ table_read table.now.words.now table.now.packed.now ((home_of (get_or hashes.now p.key 0) table.now.slots + p.probe * p.probe) % table.now.slots) (get_or hashes.now p.key 0) (places_in places.now p.four) p.pass image config field table.now.stars.now }
{
    let k = p.key as usize;
    let hash = hashes[k];
    let slot = slot_of_probe(hash, p.probe, table.slots);
    let at = TableSlot {
        words: table.words,
        slot: slot as usize,
    };
    let Some(place) = at.find_in(table.packed)? else {
        return Ok(ReadOutcome::Empty);
    };
    let entry = PackedEntry {
        packed: table.packed,
        place,
    };
    let four = places_at(places, p.four);
    evaluate_entry(
        &entry,
        slot,
        hash,
        four,
        p.pass,
        image,
        config,
        field,
        table.stars,
    )
}
