// Writes rows and the answers of operations.
ghost use Rattle.std.specs.Prelude.{◌≡◌, ◌*◌, ◌<◌, ◌≤◌, [], ◌∷◌, ◌++◌, ◌+◌, false, length, take, OnOk};
ghost use Rattle.std.specs.Fmt.{digit_glyph, signed_decimal};
ghost use Rattle.std.specs.List.{flat_map};
ghost use Rattle.std.specs.Io.KnownBytes.{Appends};
ghost use Rattle.sq_text.specs.Texts.{hex_byte_text, row_text, op_answer_text, has_note, entry_text};

use crate::output_fault::{WriteFault, write_bytes};
use crate::text::{Text, TextOf};
use sq_schema::{OpAnswer, Row, RowKey};
use std::io::Write;

// Returns the lower-case hexadecimal digit of `value`.
fn hex_digit(value: u8) -> u8
    requires { value < 16 }
    ensures { result ≡ digit_glyph false value }
{
    if value < 10 {
        b'0' + value
    } else {
        b'a' + (value - 10)
    }
}

// The most bytes whose digits are written at once.
const PART: usize = 32;

// Puts the digits of `bytes`, two each, at the front of `text`.
fn put_hex(bytes: &[u8], text: &mut [u8; 2 * PART])
    requires { length bytes.now ≤ PART }
    ensures { take (2 * length bytes.now) text.new ≡ flat_map hex_byte_text bytes.now }
{
    for (at, byte) in bytes.iter().enumerate() {
        text[2 * at] = hex_digit(*byte / 16);
        text[2 * at + 1] = hex_digit(*byte % 16);
    }
}

// Writes the digits of `bytes`, two each.
fn write_hex<W: Write>(writer: &mut W, bytes: &[u8]) -> Result<(), WriteFault>
    ensures { OnOk result (Appends (W.contents writer.old) (W.contents writer.new)
        (flat_map hex_byte_text bytes.now)) }
{
    let mut text = [0; 2 * PART];
    let mut rest = bytes;
    while !rest.is_empty() {
        let (part, after) = rest.split_at(rest.len().min(PART));
        put_hex(part, &mut text);
        write_bytes(writer, &text[..2 * part.len()])?;
        rest = after;
    }
    Ok(())
}

// Puts `row` before `text`, without the digits of its note.
fn put_row<const ROOM: usize>(text: &mut TextOf<ROOM>, row: &Row)
    requires { length text.old + 23 ≤ ROOM }
    ensures whole { row.now.note ≡ [] → text.new ≡ row_text row.now ++ text.old }
    ensures before_note { text.old ≡ []
        → text.new ++ flat_map hex_byte_text row.now.note ≡ row_text row.now }
    ensures size { length text.new ≤ length text.old + 23 }
{
    if row.note().is_empty() {
        text.put_byte(b'-');
    }
    text.put_byte(b'/');
    text.put_signed(row.number());
}

// Writes `text`, then the digits of `note`.
fn write_before_note<W: Write>(writer: &mut W, text: &Text, note: &[u8]) -> Result<(), WriteFault>
    ensures { OnOk result (Appends (W.contents writer.old) (W.contents writer.new)
        (text.now ++ flat_map hex_byte_text note.now)) }
{
    write_bytes(writer, text.as_bytes())?;
    write_hex(writer, note)
}

// Writes a space and `row`.
fn write_row<W: Write>(writer: &mut W, row: &Row) -> Result<(), WriteFault>
    ensures { OnOk result (Appends (W.contents writer.old) (W.contents writer.new)
        (32 ∷ row_text row.now)) }
{
    let mut text = Text::new();
    put_row(&mut text, row);
    text.put_byte(b' ');
    write_before_note(writer, &text, row.note())
}

// Writes a space and `number`.
fn write_signed<W: Write>(writer: &mut W, number: i64) -> Result<(), WriteFault>
    ensures { OnOk result (Appends (W.contents writer.old) (W.contents writer.new)
        (32 ∷ signed_decimal number)) }
{
    let mut text = Text::new();
    text.put_signed(number);
    text.put_byte(b' ');
    write_bytes(writer, text.as_bytes())
}

// Writes a space and an operation's `answer`.
pub(crate) fn write_op_answer<W: Write>(writer: &mut W, answer: &OpAnswer) -> Result<(), WriteFault>
    ensures { OnOk result (Appends (W.contents writer.old) (W.contents writer.new)
        (32 ∷ op_answer_text answer.now)) }
{
    match answer {
        OpAnswer::Found(None) => write_bytes(writer, b" none"),
        OpAnswer::Found(Some(row)) => write_row(writer, row),
        OpAnswer::Number(number) => write_signed(writer, *number),
        OpAnswer::Done => write_bytes(writer, b" ok"),
    }
}

/// Returns true if an operation's `answer` is a row with a note.
pub(crate) fn has_note(answer: &OpAnswer) -> bool
    ensures { result ≡ has_note answer.now }
{
    match answer {
        OpAnswer::Found(Some(row)) => !row.note().is_empty(),
        OpAnswer::Found(None) | OpAnswer::Number(_) | OpAnswer::Done => false,
    }
}

/// Puts an operation's `answer`, which has no note, before `text`.
pub(crate) fn put_op_answer<const ROOM: usize>(text: &mut TextOf<ROOM>, answer: &OpAnswer)
    requires short { has_note answer.now ≡ false }
    requires room { length text.old + 23 ≤ ROOM }
    ensures text { text.new ≡ op_answer_text answer.now ++ text.old }
    ensures size { length text.new ≤ length text.old + 23 }
{
    match answer {
        OpAnswer::Found(None) => text.put(b"none"),
        OpAnswer::Found(Some(row)) => put_row(text, row),
        OpAnswer::Number(number) => text.put_signed(*number),
        OpAnswer::Done => text.put(b"ok"),
    }
}

// Writes a space, `key` and `row`.
pub(crate) fn write_entry<W: Write>(
    writer: &mut W,
    key: RowKey,
    row: &Row,
) -> Result<(), WriteFault>
    ensures { OnOk result (Appends (W.contents writer.old) (W.contents writer.new)
        (32 ∷ entry_text (key, row.now))) }
{
    let mut text = Text::new();
    put_row(&mut text, row);
    text.put_byte(b'=');
    text.put_number(u64::from(key.sub));
    text.put_byte(b'.');
    text.put_number(u64::from(key.table));
    text.put_byte(b' ');
    write_before_note(writer, &text, row.note())
}
