// The lines of a report that other crates can write alone: those of a frame and of a pass.
use crate::bundled;
use search_feed::lent::{Frame, Table};
use search_report::report::Data;
use std::cell::RefCell;
use std::fmt::Display;
use std::io;
use std::test::Fail;

// A runtime that keeps what is written.
#[derive(Drop)]
struct Written {
    text: RefCell<String>,
}

impl Print for Written {
    fn print<D: Display + Drop>(&self, value: D) -> io::Result<()> {
        let mut text = self.text.try_borrow_mut()?;
        write!(text, "{value}")?;
        Ok(())
    }

    fn println<D: Display + Drop>(&self, value: D) -> io::Result<()> {
        self.print(value)?;
        self.print("\n")
    }

    fn write_all(&self, bytes: &[u8]) -> io::Result<()> {
        match std::str::from_utf8(bytes) {
            Ok(text) => self.print(text),
            Err(_) => Err(io::Error::other("not text")),
        }
    }
}

// A frame with these passes, and the bundled table.
fn data_of<'a>(centroids: &'a [f32], order: &'a [u32], passes: &'a [f32]) -> Data<'a> {
    Data {
        frame: Frame {
            centroids,
            order,
            config: bundled::CONFIG,
            passes,
        },
        table: Table {
            slots: bundled::SLOTS,
            words: &bundled::WORDS,
            packed: &bundled::PACKED,
            stars: &bundled::STARS,
        },
    }
}

// The line of a pass has the places that the source keeps of frame A: those in the file stdout, which oracle/run compares with the source's. The
// line of a pass that the frame lacks has none.
#[test]
fn frame_and_pass_lines(rt: HostRuntime) -> Result<(), Fail> {
    let written = Written {
        text: RefCell::new(String::new(rt.alloc())),
    };
    let a = data_of(&bundled::SPOTS_A, &bundled::ORDER_A, &bundled::PASSES);
    a.frame_line(&written);
    a.pass_line(&written, 0);
    a.pass_line(&written, 1);
    let none = data_of(&[], &[], &[]);
    none.frame_line(&written);
    none.pass_line(&written, u32::MAX);
    let text = written.text.try_borrow()?;
    assert_eq!(rt;
        text.as_str(),
        "11 spots, 1 pass\n  pass 1: 7 kept after thinning: places 0 1 3 4 5 6 9\n  pass 2\n0 spots, 0 passes\n  pass 4294967296\n"
    );
    Ok(())
}

// With 256 spots at one point and 64 checking stars, each the most that there may be, a pass keeps the brightest spot, since the others are
// closer to it than the separation. With one checking star or one spot more its line has no places.
#[test]
fn pass_line_at_its_limits(rt: HostRuntime) -> Result<(), Fail> {
    let written = Written {
        text: RefCell::new(String::new(rt.alloc())),
    };
    let centroids = [0.0; 514];
    let order: [u32; 256] = std::array::from_fn(|i| i as u32);
    let longer: [u32; 257] = std::array::from_fn(|i| i as u32);
    let mut most = data_of(&centroids[..512], &order, &bundled::PASSES);
    most.frame.config.checking = 64;
    most.pass_line(&written, 0);
    most.frame.config.checking = 65;
    most.pass_line(&written, 0);
    let more = data_of(&centroids, &longer, &bundled::PASSES);
    more.pass_line(&written, 0);
    let text = written.text.try_borrow()?;
    assert_eq!(rt;
        text.as_str(),
        "  pass 1: 1 kept after thinning: places 0\n  pass 1\n  pass 1\n"
    );
    Ok(())
}
