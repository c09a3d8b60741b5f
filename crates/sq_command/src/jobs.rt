// The jobs of a sample input.
ghost use Rattle.std.specs.Prelude.{◌≡◌, ◌<◌};
ghost use Rattle.sq_plan.specs.PlanValue.{owner};

use crate::keys::KeySource;
use crate::sizes::DemoSizes;
use sq_plan::Plan;
use sq_schema::{ROOT_END, Root};
use std::io;
use std::io::Write;

/// Writes the sizes that `squall ranges --sizes` proposes for the rows, and the jobs, each for the
/// partition that owns its root key before the move.
pub(crate) fn write_jobs<W: Write>(
    writer: &mut W,
    sizes: &DemoSizes,
    old: &Plan,
) -> io::Result<()> {
    let width = (sizes.hot_keys() + 4_095) / 4_096;
    let limit = chunk_limit(width, sizes);
    writeln!(writer, "config {width} {limit} 4")?;
    let mut keys = KeySource::new(sizes);
    for id in 0..sizes.jobs {
        let root = keys.draw();
        let part = owner_of(old, root);
        writeln!(writer, "txn {part} {id} {root} add 0 0 1")?;
    }
    Ok(())
}

// How many bytes a chunk has: a 1,024th of those that move, up to 16,384, or those of a leaf of
// `width` families if they are more, and then a power of two from 1,024 to 65,536. A family has 32
// bytes, 24 for each row, and 4 for the note of each row but the first.
fn chunk_limit(width: u64, sizes: &DemoSizes) -> u64 {
    let family = sizes.rows_per_root.saturating_mul(28).saturating_add(28);
    let share = (family.saturating_mul(sizes.hot_keys()) / 1_024).min(16_384);
    family
        .saturating_mul(width)
        .max(share)
        .min(65_536)
        .next_power_of_two()
        .max(1_024)
}

// The partition that owns a root key.
fn owner_of(old: &Plan, root: u64) -> u8
    requires { root < ROOT_END }
    ensures { result ≡ owner old.now root }
{
    let Some(key) = Root::new(root) else {
        unreachable!()
    };
    old.owner(key).number()
}
