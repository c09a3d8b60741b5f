// Rows as lines of a header.
ghost use Rattle.std.specs.Prelude.{◌≡◌, ◌<◌, false, OnOk};
ghost use Rattle.std.specs.Fmt.{digit_glyph};
ghost use Rattle.std.specs.List.{flat_map};
ghost use Rattle.std.specs.Io.KnownBytes.{Appends};
ghost use Rattle.sq_text.specs.Texts.{hex_byte_text, note_text};
ghost use Rattle.sq_results.specs.RowLines.{row_line, root_lines, lent_values};

use sq_schema::{Family, Row, RowKey};
use std::io;
use std::io::Write;

// The lower-case hexadecimal digit of `value`.
fn hex_digit(value: u8) -> u8
    requires { value < 16 }
    ensures { result ≡ digit_glyph false value }
{
    if value < 10 {
        b'0' + value
    } else {
        b'a' + (value - 10)
    }
}

// Writes the hexadecimal digits of bytes, two for each.
fn write_hex<W: Write>(writer: &mut W, bytes: &[u8]) -> io::Result<()>
    ensures { OnOk result (Appends (W.contents writer.old) (W.contents writer.new)
        (flat_map hex_byte_text bytes.now)) }
{
    for byte in bytes {
        writer.write_all(&[hex_digit(*byte / 16), hex_digit(*byte % 16)])?;
    }
    Ok(())
}

// Writes a note, as a word of a row's line.
fn write_note<W: Write>(writer: &mut W, note: &[u8]) -> io::Result<()>
    ensures { OnOk result (Appends (W.contents writer.old) (W.contents writer.new)
        (note_text note.now)) }
{
    if note.is_empty() {
        writer.write_all(b"-")
    } else {
        write_hex(writer, note)
    }
}

// Writes the line of a row of the root key `root`.
fn write_row<W: Write>(writer: &mut W, root: u64, key: RowKey, row: &Row) -> io::Result<()>
    ensures { OnOk result (Appends (W.contents writer.old) (W.contents writer.new)
        (row_line root (key, row.now))) }
{
    let RowKey { table, sub } = key;
    let number = row.number();
    write!(writer, "row {root} {table} {sub} {number} ")?;
    write_note(writer, row.note())?;
    writer.write_all(b"\n")
}

// Writes the lines of a family's rows, by rising key.
fn write_family<W: Write>(writer: &mut W, family: &Family) -> io::Result<()>
    ensures { OnOk result (Appends (W.contents writer.old) (W.contents writer.new)
        (root_lines family.now)) }
{
    let root = family.root().number();
    for (key, row) in family.rows().iter() {
        write_row(writer, root, *key, row)?;
    }
    Ok(())
}

/// Writes the lines of the rows of families, in their order. Fails if a write does.
pub(crate) fn write_families<W: Write>(writer: &mut W, families: &[&Family]) -> io::Result<()>
    ensures { OnOk result (Appends (W.contents writer.old) (W.contents writer.new)
        (flat_map root_lines (lent_values families.now))) }
{
    for family in families {
        write_family(writer, family)?;
    }
    Ok(())
}
