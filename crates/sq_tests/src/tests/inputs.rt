// Inputs in parts with a read that fails, and lines that are recalled.
use super::readers::Drip;
use sq_input::{Inserting, Recalled, Recalling};
use std::alloc::Global;
use std::cell::Cell;
use std::io;
use std::io::Read;
use std::test::Fail;

// The bytes before a failed read, in the main part or else in the rows, and whether the next one fails too.
fn read_failing(alloc: Global, fails_in_main: bool) -> (Vec<u8>, bool) {
    let main = Drip {
        rest: b"config\nsta",
        most: 4,
        fails: fails_in_main,
    };
    let rows = Drip {
        rest: b"row 1\n",
        most: 4,
        fails: !fails_in_main,
    };
    let lines = Cell::new(None);
    let mut reader = Inserting::new(main, rows, &lines);
    let mut text = Vec::new(alloc);
    let fails = reader.read_to_end(&mut text).is_err() && reader.read_to_end(&mut text).is_err();
    (text, fails)
}

#[test]
fn a_read_that_fails_is_told(rt: HostRuntime) {
    for (fails_in_main, wanted) in [(true, "config\nrow 1\nsta"), (false, "config\nrow 1\n")] {
        let (text, fails) = read_failing(rt.alloc(), fails_in_main);
        assert!(rt; fails && text.as_slice() == wanted.as_bytes());
    }
}

// How many bytes come by one read after another, and what is recalled of lines then.
const READS: [(usize, &[(usize, Recalled<'static>)]); 3] = [
    (
        6,
        &[(1, Recalled::Line(b"one")), (2, Recalled::Rest(b"tw"))],
    ),
    (
        6,
        &[
            (1, Recalled::Lost),
            (2, Recalled::Line(b"two")),
            (3, Recalled::Rest(b"thre")),
        ],
    ),
    (
        2,
        &[
            (0, Recalled::Lost),
            (2, Recalled::Lost),
            (3, Recalled::Line(b"three")),
            (4, Recalled::Missing),
        ],
    ),
];

// Whether this is recalled of these lines.
fn are_told<R: Read>(reader: &Recalling<R>, lines: &[(usize, Recalled<'_>)]) -> bool {
    for (number, line) in lines {
        if reader.line(*number) != *line {
            return false;
        }
    }
    true
}

#[test]
fn the_lines_of_the_last_read_are_told(rt: HostRuntime) -> Result<(), Fail> {
    let input = Drip {
        rest: b"one\ntwo\nthree\n",
        most: 6,
        fails: false,
    };
    let mut reader = Recalling::new(rt.alloc(), input);
    let mut bytes = [0; 6];
    for (count, lines) in &READS {
        assert!(rt; reader.read(&mut bytes)? == *count && are_told(&reader, lines));
    }
    Ok(())
}

// How many bytes of a line without end are recalled after so many reads of 4,096 bytes, if it is.
fn told_length(alloc: Global, reads: u32) -> Result<Option<usize>, Fail> {
    let mut reader = Recalling::new(alloc, io::repeat(b'x'));
    let mut bytes = [0; 4096];
    for _ in 0..reads {
        reader.read(&mut bytes)?;
    }
    Ok(match reader.line(1) {
        Recalled::Rest(line) => Some(line.len()),
        _ => None,
    })
}

// A line isn't recalled once it is longer than there is room for.
#[test]
fn a_line_without_end_is_lost(rt: HostRuntime) -> Result<(), Fail> {
    assert!(rt; told_length(rt.alloc(), 32)? == Some(131_072));
    assert!(rt; told_length(rt.alloc(), 96)?.is_none());
    Ok(())
}
