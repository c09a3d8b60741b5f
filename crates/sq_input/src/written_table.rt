// Rows as a table of comma-separated values.
use crate::columns::{HEX, NAMES};
use csv::{Error, ErrorKind, Writer};
use sq_text::Words;
use std::alloc::{AllocError, Global};
use std::io::ErrorKind as IoErrorKind;
use std::{io, str};

// The word of a note without bytes.
const NO_NOTE: &[u8] = b"-";

/// The rows in `lines`, each a line `row ROOT T S N NOTE`, as a table of comma-separated values
/// after a record that names the columns. A note is a text if it can be shown as one, else `hex:`
/// and its digits, so that [`CsvRows`](crate::CsvRows) reads the same rows. Fails only if memory
/// runs out.
pub fn table_of(alloc: Global, lines: &[u8]) -> io::Result<Vec<u8>> {
    let mut table = Writer::from_writer(Vec::new(alloc));
    table.write_fields(&NAMES).map_err(unwritten)?;
    if let Ok(lines) = str::from_utf8(lines) {
        for line in lines.split('\n') {
            write_row(alloc, &mut table, line.as_bytes())?;
        }
    }
    match table.into_inner() {
        Ok(text) => Ok(text),
        Err(_) => Err(io::Error::from(IoErrorKind::OutOfMemory)),
    }
}

// Writes the record of a row, if `line` has its words.
fn write_row(alloc: Global, table: &mut Writer<Vec<u8>>, line: &[u8]) -> io::Result<()> {
    let mut words = Words::of(line);
    let _row = words.next();
    let root = words.next();
    let (place, sub, number) = (words.next(), words.next(), words.next());
    let (Some(root), Some(place), Some(sub), Some(number), Some(note)) = (
        root,
        place,
        sub,
        number,
        words.next_long(),
    ) else {
        return Ok(());
    };
    let note = note_field(alloc, note)?;
    table
        .write_fields(&[root, place, sub, number, note.as_slice()])
        .map_err(unwritten)
}

// Why a record isn't written.
fn unwritten(error: Error) -> io::Error {
    match error.into_kind() {
        ErrorKind::Io(error) => error,
        _ => io::Error::from(IoErrorKind::OutOfMemory),
    }
}

// The field of the note that `word` spells: its bytes if they can be shown, else `hex:` and `word`.
fn note_field(alloc: Global, word: &[u8]) -> Result<Vec<u8>, AllocError> {
    if word == NO_NOTE {
        return Ok(Vec::new(alloc));
    }
    let bytes = bytes_of(alloc, word)?;
    if is_shown(&bytes) {
        return Ok(bytes);
    }
    let mut field = Vec::from_slice(alloc, &HEX)?;
    field.extend_from_slice(word)?;
    Ok(field)
}

// The bytes that hexadecimal digits spell, two for each.
fn bytes_of(alloc: Global, digits: &[u8]) -> Result<Vec<u8>, AllocError> {
    let mut bytes = Vec::with_capacity(alloc, digits.len() / 2)?;
    let mut first = None;
    for digit in digits {
        let value = value_of(*digit);
        match first.take() {
            Some(high) => bytes.push(high << 4 | value)?,
            None => first = Some(value),
        }
    }
    Ok(bytes)
}

// The value of a hexadecimal digit.
fn value_of(digit: u8) -> u8 {
    match digit {
        b'0'..=b'9' => digit - b'0',
        b'a'..=b'f' => digit - b'a' + 10,
        _ => 0,
    }
}

// Returns whether a note is written as a text: one without control characters that doesn't begin
// as digits do.
fn is_shown(bytes: &[u8]) -> bool {
    str::from_utf8(bytes).is_ok()
        && !bytes.starts_with(&HEX)
        && bytes.iter().all(|byte| !byte.is_ascii_control())
}
