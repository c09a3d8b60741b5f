// The commands that run a sample input.
use std::io;
use std::io::Write;

/// Writes the shell commands that run the sample input in `folder`: one lists what moves, one
/// performs the move. Fails if the writer does.
pub fn write_commands<W: Write>(writer: &mut W, folder: &str) -> io::Result<()> {
    write_command(writer, "ranges --sizes", folder)?;
    write_command(writer, "live", folder)
}

// Writes the command that runs `subcommand` with the sample input in `folder`.
fn write_command<W: Write>(writer: &mut W, subcommand: &str, folder: &str) -> io::Result<()> {
    write!(writer, "squall {subcommand}")?;
    write_file(writer, " --old ", folder, "/old.json")?;
    write_file(writer, " --new ", folder, "/new.json")?;
    write_file(writer, " --rows ", folder, "/rows.txt")?;
    write_file(writer, " ", folder, "/jobs.txt\n")
}

// Writes `front`, and then a word that names a file of `folder`.
fn write_file<W: Write>(writer: &mut W, front: &str, folder: &str, file: &str) -> io::Result<()> {
    writer.write_all(front.as_bytes())?;
    write_word(writer, folder.as_bytes())?;
    writer.write_all(file.as_bytes())
}

// Writes `name` as a word of a shell, in single quotes if a byte of it has a special meaning.
fn write_word<W: Write>(writer: &mut W, name: &[u8]) -> io::Result<()> {
    if name.iter().all(|byte| is_plain(*byte)) {
        return writer.write_all(name);
    }
    writer.write_all(b"'")?;
    for byte in name {
        if *byte == b'\'' {
            writer.write_all(b"'\\''")?;
        } else {
            writer.write_all(&[*byte])?;
        }
    }
    writer.write_all(b"'")
}

// Returns whether a byte has no special meaning to a shell.
fn is_plain(byte: u8) -> bool {
    byte.is_ascii_alphanumeric() || matches!(byte, b'/' | b'.' | b'_' | b'-')
}
