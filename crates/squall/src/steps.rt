// The script of a whole move.
ghost use Rattle.sq_input.specs.Recalling.{recalling_remaining};
ghost use Rattle.sq_schema.specs.declared.schema.TheConstants.{MAX_TABLES};
ghost use Rattle.sq_world.specs.Scripts.{WritesScript};
ghost use Rattle.squall.specs.Session.{exit_status, EndsAs};

use crate::session::{exit_status, explain_end};
use crate::source::Source;
use sq_input::Recalling;
use sq_world::write_script;
use std::io::{Read, Write};
use std::rt::Files;

/// Writes the script of the whole move that the header in `reader` describes. Standard error
/// explains a fault. Returns the exit status.
pub fn steps<T: Eprint + Files + AllocGlobal, R: Read, W: Write>(
    rt: &T,
    reader: &mut Recalling<R>,
    writer: &mut W,
    source: &Source<'_>,
) -> u8
    ensures { EndsAs
        (WritesScript MAX_TABLES (recalling_remaining R.remaining reader.old)
        (W.contents writer.old) (W.contents writer.new))
        exit_status result }
{
    let written = write_script(rt.alloc(), reader, writer);
    explain_end(rt, source, reader, written);
    exit_status(written)
}
