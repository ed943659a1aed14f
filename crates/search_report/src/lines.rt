// Writes the lines of a report. A line that can't be written is left out, and the report goes on.
use crate::words::{Count, Counts, Ending, Field, Row};
use candidates::entry_tests::Candidate;
use question::Question;
use search_feed::lent::Table;
use undivided_run::state::{Position, State, Status};

// Writes where a candidate was found: the number and positions of its combination, its key and how many there are, its probe and its slot.
pub fn where_line(rt: &impl Print, patterns: u64, at: Position, keys: u32, slot: u64) {
    let four = at.four;
    let kept = [four.a, four.b, four.c, four.d];
    let row = Row(&kept);
    let key = u64::from(at.key) + 1;
    let probe = at.probe;
    let _ = println!(rt;
        "  combination {patterns}: kept{row}; key {key} of {keys}, probe {probe}, slot {slot}"
    );
}

// Writes a candidate, and the counts when it was found.
pub fn candidate_line(rt: &impl Print, c: Candidate, state: State) {
    let places = c.places.map(|p| p.0);
    let stars = c.stars.map(|s| s.0);
    let (place_row, star_row) = (Row(&places), Row(&stars));
    let field = Field(c.field);
    let mark = if c.rebuild { "rebuild" } else { "no rebuild" };
    let counts = Counts(state);
    let _ = println!(rt; "  candidate: places{place_row}, stars{star_row}; field {field}, {mark}");
    let _ = println!(rt; "  found after {counts}");
}

// Writes what a search that is under way has done so far.
pub fn progress_line(rt: &impl Print, state: State) {
    let counts = Counts(state);
    let _ = println!(rt; "  so far {counts}");
}

// Writes how a search ended.
pub fn end_line(rt: &impl Print, how: Status, state: State) {
    let ending = Ending(how);
    let counts = Counts(state);
    let _ = println!(rt; "  searched to the end: {ending}; {counts}");
}

// Writes how many candidates a search gave.
pub fn total_line(rt: &impl Print, found: u64) {
    let all = Count(found, "candidate in all", "candidates in all");
    let _ = println!(rt; "  {all}");
}

// Writes a refusal and what its question is about.
pub fn refusal_line(rt: &impl Print, question: Question) {
    let n = u32::from(question);
    let _ = println!(rt; "refused by question {n} ({question})");
}

// Writes how many slots, patterns and stars the table has, and what the opening check answers.
pub fn table_line(rt: &impl Print, table: &Table<'_>) {
    let slot_count = Count(table.slots, "slot", "slots");
    let patterns = Count(table.packed.len() as u64 / 22, "pattern", "patterns");
    let star_count = Count(table.stars.len() as u64 / 3, "star", "stars");
    let _ = print!(rt; "table: {slot_count}, {patterns}, {star_count}; ");
    match opening_check::open_check::open_check(
        table.slots,
        table.words,
        table.packed,
        table.stars,
    ) {
        Ok(()) => {
            let _ = println!(rt; "opening check passed");
        }
        Err(question) => refusal_line(rt, question),
    }
}
