// The columns of a record, and the line of the row that it describes.
ghost use Rattle.std.specs.Prelude.{◌≡◌, ◌<◌, ◌∷◌, ◌++◌, false, map, IfOk, OnOk};
ghost use Rattle.std.specs.Fmt.{digit_glyph};
ghost use Rattle.std.specs.List.{flat_map};
ghost use Rattle.csv.specs.Records.{fields_of};
ghost use Rattle.sq_text.specs.Texts.{hex_byte_text};
ghost use Rattle.sq_input.specs.Columns.{word_byte, digit_byte, digits_note, field_note, field_word, fields_text, record_line};

use csv::ByteRecord;
use std::alloc::{AllocError, Global};

/// The names of the columns in a header.
pub(crate) const NAMES: [&[u8]; 5] = [b"root", b"table", b"sub", b"number", b"note"];

/// The column of the note, from 0.
pub const NOTE_COLUMN: usize = 4;

/// How a note in hexadecimal digits begins.
pub(crate) const HEX: [u8; 4] = *b"hex:";

// Replaces a byte that a word can't have.
const NO_BYTE: u8 = b'?';

// Room for the line of a row with a short note.
const LINE_ROOM: usize = 64;

/// Returns whether a record names the columns, in upper or lower case.
pub(crate) fn is_header(values: &ByteRecord) -> bool {
    values.len() == NAMES.len()
        && NAMES.iter().enumerate().all(|(column, name)| {
            values
                .get(column)
                .is_some_and(|field| field.eq_ignore_ascii_case(name))
        })
}

/// The line of the row that a record describes: the word `row`, and a word for each field. A faulty
/// field gets a faulty word. Fails if memory runs out.
pub(crate) fn record_line(alloc: Global, values: &ByteRecord) -> Result<Vec<u8>, AllocError>
    ensures { IfOk result (λ line. line.items ≡ record_line (fields_of values.now)) }
{
    let mut line = Vec::with_capacity(alloc, LINE_ROOM)?;
    line.extend_from_slice(b"row")?;
    push_fields(&mut line, values)?;
    line.push(b'\n')?;
    Ok(line)
}

// Appends the words of all fields, each after a space.
fn push_fields(line: &mut Vec<u8>, values: &ByteRecord) -> Result<(), AllocError>
    ensures { OnOk result (line.new.items ≡ line.old.items ++ fields_text (fields_of values.now)) }
{
    for column in 0..values.len() {
        if let Some(field) = values.get(column) {
            push_field(line, column, field)?;
        }
    }
    Ok(())
}

// Appends a space and the word of a field.
fn push_field(line: &mut Vec<u8>, column: usize, field: &[u8]) -> Result<(), AllocError>
    ensures { OnOk result (line.new.items ≡ line.old.items ++ 32 ∷ field_word (column, field.now)) }
{
    line.push(b' ')?;
    if column == NOTE_COLUMN {
        push_note(line, field)
    } else {
        push_word(line, field)
    }
}

// Appends the note of a field.
fn push_note(line: &mut Vec<u8>, field: &[u8]) -> Result<(), AllocError>
    ensures { OnOk result (line.new.items ≡ line.old.items ++ field_note field.now) }
{
    if field.starts_with(&HEX) {
        push_digits(line, &field[HEX.len()..])
    } else if field.is_empty() {
        push_word(line, b"-")
    } else {
        push_hex(line, field)
    }
}

// Appends a note of hexadecimal digits.
fn push_digits(line: &mut Vec<u8>, digits: &[u8]) -> Result<(), AllocError>
    ensures { OnOk result (line.new.items ≡ line.old.items ++ digits_note digits.now) }
{
    if digits.is_empty() {
        return push_word(line, b"-");
    }
    for digit in digits {
        line.push(digit_byte(*digit))?;
    }
    Ok(())
}

// Appends the hexadecimal digits of bytes, two for each.
fn push_hex(line: &mut Vec<u8>, bytes: &[u8]) -> Result<(), AllocError>
    ensures { OnOk result (line.new.items ≡ line.old.items ++ flat_map hex_byte_text bytes.now) }
{
    for byte in bytes {
        line.extend_from_slice(&[hex_digit(*byte / 16), hex_digit(*byte % 16)])?;
    }
    Ok(())
}

// Appends the bytes of a word.
fn push_word(line: &mut Vec<u8>, bytes: &[u8]) -> Result<(), AllocError>
    ensures { OnOk result (line.new.items ≡ line.old.items ++ map word_byte bytes.now) }
{
    for byte in bytes {
        line.push(word_byte(*byte))?;
    }
    Ok(())
}

// The byte of a word for `byte`.
fn word_byte(byte: u8) -> u8
    ensures { result ≡ word_byte byte }
{
    if byte > b' ' { byte } else { NO_BYTE }
}

// The byte of a word of hexadecimal digits for `byte`.
fn digit_byte(byte: u8) -> u8
    ensures { result ≡ digit_byte byte }
{
    if byte == b'-' {
        NO_BYTE
    } else {
        word_byte(byte)
    }
}

// The lower-case hexadecimal digit of `value`.
fn hex_digit(value: u8) -> u8
    requires { value < 16 }
    ensures { result ≡ digit_glyph false value }
{
    if value < 10 {
        b'0' + value
    } else {
        b'a' + (value - 10)
    }
}
