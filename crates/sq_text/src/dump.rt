// Writes the lines of a dump.
ghost use Rattle.std.specs.Prelude.{◌≡◌, ◌≤◌, [], ◌∷◌, ◌++◌, length, decimal, OnOk};
ghost use Rattle.std.specs.List.{flat_map};
ghost use Rattle.std.specs.Io.KnownBytes.{Appends};
ghost use Rattle.sq_schema.specs.Prelude.{rows_of};
ghost use Rattle.sq_text.specs.Texts.{entry_text, phase_text, end_line, at_line, in_line, way_lines};

use crate::answer_text::put_note;
use crate::output_fault::{WriteFault, write_bytes};
use crate::row_text::write_entry;
use crate::text::Text;
use sq_model::Phase;
use sq_plan::PartId;
use sq_schema::{Family, RowIter};
use sq_store::Note;
use std::io::Write;

fn phase_text(phase: Phase) -> &'static str
    ensures { result.now ≡ phase_text phase }
{
    match phase {
        Phase::Idle => "idle",
        Phase::Preparing => "preparing",
        Phase::Moving => "moving",
        Phase::Ended => "ended",
    }
}

/// Writes the first line of a dump: the `phase` that the run ended in. Fails if a write fails.
pub fn write_end<W: Write>(writer: &mut W, phase: Phase) -> Result<(), WriteFault>
    ensures { OnOk result (Appends (W.contents writer.old) (W.contents writer.new)
        (end_line phase)) }
{
    let phase = phase_text(phase);
    writeln!(writer, "end {phase}")?;
    Ok(())
}

// Writes each row with its key, with a space before each.
fn write_entries<W: Write>(writer: &mut W, entries: RowIter<'_>) -> Result<(), WriteFault>
    ensures { OnOk result (Appends (W.contents writer.old) (W.contents writer.new)
        (flat_map (λ entry. 32 ∷ entry_text entry) entries.entry)) }
{
    for (key, row) in entries {
        write_entry(writer, *key, row)?;
    }
    Ok(())
}

// Puts the root key of `family` and the length of its log into the empty `text`.
fn put_family(text: &mut Text, family: &Family)
    requires { text.old ≡ [] }
    ensures text { text.new ≡ decimal family.now.root ++ (32 ∷ decimal (length family.now.log)) }
    ensures size { length text.new ≤ 41 }
{
    text.put_number(family.position());
    text.put_byte(b' ');
    text.put_number(family.root().number());
}

// Writes `text`, then the rows of `family` and the end of the line.
fn write_before_rows<W: Write>(
    writer: &mut W,
    text: &Text,
    family: &Family,
) -> Result<(), WriteFault>
    ensures { OnOk result (Appends (W.contents writer.old) (W.contents writer.new)
        (text.now ++ (flat_map (λ entry. 32 ∷ entry_text entry) (rows_of family.now) ++
        (10 ∷ [])))) }
{
    write_bytes(writer, text.as_bytes())?;
    write_entries(writer, family.rows().iter())?;
    write_bytes(writer, b"\n")
}

/// Writes the line of a `family` in the store of partition `part`. Fails if a write fails.
pub fn write_at<W: Write>(writer: &mut W, part: PartId, family: &Family) -> Result<(), WriteFault>
    ensures { OnOk result (Appends (W.contents writer.old) (W.contents writer.new)
        (at_line part family.now)) }
{
    let mut text = Text::new();
    put_family(&mut text, family);
    text.put_byte(b' ');
    text.put_number(u64::from(part.number()));
    text.put(b"at ");
    write_before_rows(writer, &text, family)
}

// Writes the line of a `family` in a chunk.
fn write_in<W: Write>(writer: &mut W, family: &Family) -> Result<(), WriteFault>
    ensures { OnOk result (Appends (W.contents writer.old) (W.contents writer.new)
        (in_line family.now)) }
{
    let mut text = Text::new();
    put_family(&mut text, family);
    text.put(b"in ");
    write_before_rows(writer, &text, family)
}

/// Writes the lines of a chunk that was cut and isn't loaded yet: its `note`, then each of its
/// `families`. Fails if a write fails.
pub fn write_way<W: Write>(
    writer: &mut W,
    note: &Note,
    families: &[Family],
) -> Result<(), WriteFault>
    ensures { OnOk result (Appends (W.contents writer.old) (W.contents writer.new)
        (way_lines (record { note = note.now; families = families.now }))) }
{
    let mut text = Text::new();
    put_note(&mut text, note, families.len() as u64);
    text.put_byte(b' ');
    text.put_number(u64::from(note.dst.number()));
    text.put_byte(b' ');
    text.put_number(u64::from(note.src.number()));
    text.put(b"way ");
    write_bytes(writer, text.as_bytes())?;
    for family in families {
        write_in(writer, family)?;
    }
    Ok(())
}
