// Writes the entries of numbers.
ghost use Rattle.std.specs.Prelude.{◌≡◌, [], IfOk, OnOk, IfSome, map, option_map, unwrap_or};
ghost use Rattle.std.specs.List.{flat_map};
ghost use Rattle.std.specs.Io.KnownBytes.{Appends};
ghost use Rattle.sq_explain.specs.Meanings.{meanings, meaning_of, entry_lines, Explains};

use crate::table::{ENTRIES, Entry};
use std::io;
use std::io::Write;

/// Returns all entries, in the order of their numbers.
pub fn entries() -> &'static [Entry]
    ensures { map (λ entry. (entry.number, entry.meaning.now)) result.now ≡ meanings }
{
    &ENTRIES
}

/// Returns the entry of `number`; `None` if there is no such number.
pub fn entry(number: u16) -> Option<Entry>
    ensures means { option_map (λ entry. entry.meaning.now) result ≡ meaning_of number }
    ensures is { IfSome result (λ entry. entry.number ≡ number) }
{
    let found = entries().iter().find(|entry| entry.number == number);
    found.copied()
}

/// Returns the meaning of `number`; the empty text if there is no such number.
pub fn meaning(number: u16) -> &'static str
    ensures { result.now ≡ unwrap_or (meaning_of number) [] }
{
    entry(number).map_or("", |entry| entry.meaning)
}

/// Writes `entry`. Fails if a write fails.
#[tactic(auto, unfolding(crate::specs::Meanings::entry_lines))]
pub fn write_entry<W: Write>(writer: &mut W, entry: &Entry) -> io::Result<()>
    ensures { OnOk result (Appends (W.contents writer.old) (W.contents writer.new)
        (entry_lines entry.now)) }
{
    let Entry {
        number,
        meaning,
        given,
        advice,
    } = *entry;
    writeln!(writer, "{number} {meaning}\n    {given}\n    {advice}")
}

/// Writes `entries` one after another. Fails if a write fails.
pub fn write_entries<W: Write>(writer: &mut W, entries: &[Entry]) -> io::Result<()>
    ensures { OnOk result (Appends (W.contents writer.old) (W.contents writer.new)
        (flat_map entry_lines entries.now)) }
{
    for entry in entries {
        write_entry(writer, entry)?;
    }
    Ok(())
}

/// Writes the entry of `number`, or without a number all entries. Returns false, and writes
/// nothing, if there is no such entry. Fails if a write or the flush fails.
pub fn explain<W: Write>(writer: &mut W, number: Option<u16>) -> io::Result<bool>
    ensures { IfOk result (Explains number (W.contents writer.old) (W.contents writer.new)) }
{
    let is_told = write_told(writer, number)?;
    writer.flush()?;
    Ok(is_told)
}

// Writes the entry of `number`, or without a number all entries, and leaves them to be flushed.
fn write_told<W: Write>(writer: &mut W, number: Option<u16>) -> io::Result<bool>
    ensures { IfOk result (Explains number (W.contents writer.old) (W.contents writer.new)) }
{
    let Some(number) = number else {
        write_entries(writer, entries())?;
        return Ok(true);
    };
    match entry(number) {
        Some(entry) => {
            write_entry(writer, &entry)?;
            Ok(true)
        }
        None => Ok(false),
    }
}
