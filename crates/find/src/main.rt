// Searches two bundled frames in a bundled table, or the frames of the replay stream in the file that its argument names, and reports what
// each search does. A line that can't be written is left out.
#![tactic(auto)]

mod bundled;
mod recorded;
#[cfg(test)]
mod tests;

use crate::recorded::report_stream;
use search_feed::lent::{Frame, Table};
use search_report::report::{Data, table_line};
use std::env::{Env, FillError};
use std::fs::File;
use undivided_run::state::State;

// Searches a bundled frame and reports the search.
fn report_bundled(
    rt: &impl Print,
    table: &Table<'_>,
    name: &str,
    centroids: &[f32],
    order: &[u32],
) {
    let _ = print!(rt; "{name}: ");
    let frame = Frame {
        centroids,
        order,
        config: bundled::CONFIG,
        passes: &bundled::PASSES,
    };
    let data = Data {
        frame,
        table: *table,
    };
    data.report_search(rt, State::fresh());
}

// Reports the bundled table and the searches of the two bundled frames.
fn report_frames(rt: &impl Print) {
    let table = Table {
        slots: bundled::SLOTS,
        words: &bundled::WORDS,
        packed: &bundled::PACKED,
        stars: &bundled::STARS,
    };
    table_line(rt, &table);
    report_bundled(rt, &table, "frame A", &bundled::SPOTS_A, &bundled::ORDER_A);
    report_bundled(rt, &table, "frame B", &bundled::SPOTS_B, &bundled::ORDER_B);
}

// Writes that the file can't be opened.
fn unopened_line(rt: &impl Print, path: &[u8]) {
    let _ = rt.write_all(b"can't open ");
    let _ = rt.write_all(path);
    let _ = rt.write_all(b"\n");
}

// Reports the searches of the replay stream in the file `path`.
fn report_file(rt: &HostRuntime, path: &[u8]) {
    match std::str::from_utf8(path) {
        Ok(name) => match File::open(rt, name) {
            Ok(mut file) => report_stream(rt, &mut file),
            Err(_) => unopened_line(rt, path),
        },
        Err(_) => unopened_line(rt, path),
    }
}

// Reports the bundled frames where there is no argument, else the stream in the file that the first argument names.
fn main(rt: HostRuntime) {
    let mut path = [0; 4096];
    match rt.arg(1, &mut path) {
        Ok(n) => report_file(&rt, &path[..n]),
        Err(FillError::TooLong) => unopened_line(&rt, b""),
        Err(FillError::NotPresent) => report_frames(&rt),
    }
}
