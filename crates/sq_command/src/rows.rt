// The rows of a sample input.
use crate::sizes::DemoSizes;
use std::io;
use std::io::Write;

/// Writes the rows of the root keys, in their order: the root row of each, and then its rows of
/// table 1.
pub(crate) fn write_rows<W: Write>(writer: &mut W, sizes: &DemoSizes) -> io::Result<()> {
    for root in 0..sizes.roots {
        for number in 0..sizes.rows_per_root {
            write_row(writer, root, number)?;
        }
    }
    Ok(())
}

// Writes row number `number`, from 0, of a root key.
fn write_row<W: Write>(writer: &mut W, root: u64, number: u64) -> io::Result<()> {
    if number == 0 {
        writeln!(writer, "row {root} 0 0 100 -")
    } else {
        writeln!(writer, "row {root} 1 {number} {number} 6974656d")
    }
}
