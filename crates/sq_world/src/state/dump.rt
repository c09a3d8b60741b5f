// The dump of a world: where each family and each chunk under way is.
ghost use Rattle.std.specs.Prelude.{OnOk};
ghost use Rattle.std.specs.List.{flat_map, range_with_len};
ghost use Rattle.std.specs.Option.{option_copied};
ghost use Rattle.std.specs.Io.KnownBytes.{Appends};
ghost use Rattle.sq_store.specs.Prelude.{families_in};
ghost use Rattle.sq_text.specs.Texts.{at_line, way_lines};
ghost use Rattle.sq_transition.specs.Prelude.{link_index, link_of, option_list, under_way};
ghost use Rattle.sq_world.specs.Sound.{IsSound};
ghost use Rattle.sq_world.specs.Dump.{part_lines, link_lines, source_lines, dump};

use crate::queue::Queue;
use crate::state::State;
use sq_plan::PartId;
use sq_store::{Chunk, SlabStore};
use sq_text::{WriteFault, write_at, write_end, write_way};
use std::io::Write;

impl State {
    /// Writes the phase, each partition with its families, and each link with its chunks under way.
    /// Fails if a write fails.
    pub fn write_dump<W: Write>(&self, writer: &mut W) -> Result<(), WriteFault>
        requires { IsSound self.now }
        ensures { OnOk result (Appends (W.contents writer.old) (W.contents writer.new)
            (dump self.now)) }
    {
        write_end(writer, self.phase())?;
        self.write_parts(writer)?;
        self.write_links(writer)
    }

    // Writes the families of each partition.
    fn write_parts<W: Write>(&self, writer: &mut W) -> Result<(), WriteFault>
        requires { IsSound self.now }
        ensures { OnOk result (Appends (W.contents writer.old) (W.contents writer.new)
            (flat_map (part_lines self.now) (range_with_len 0 self.now.old.parts))) }
    {
        for part in 0..self.old_plan.parts() {
            let store = self.cores[usize::from(part)].store();
            write_families(writer, PartId::new(part), store)?;
        }
        Ok(())
    }

    // Writes the chunks under way from each partition.
    fn write_links<W: Write>(&self, writer: &mut W) -> Result<(), WriteFault>
        ensures { OnOk result (Appends (W.contents writer.old) (W.contents writer.new)
            (flat_map (source_lines self.now) (range_with_len 0 self.now.old.parts))) }
    {
        for src in 0..self.old_plan.parts() {
            self.write_source(writer, u64::from(src))?;
        }
        Ok(())
    }

    // Writes the chunks under way from `src` to each partition.
    fn write_source<W: Write>(&self, writer: &mut W, src: u64) -> Result<(), WriteFault>
        ensures { OnOk result (Appends (W.contents writer.old) (W.contents writer.new)
            (source_lines self.now src)) }
    {
        for dst in 0..self.old_plan.parts() {
            self.write_link(writer, src, u64::from(dst))?;
        }
        Ok(())
    }

    // Writes the chunks under way from `src` to `dst`.
    fn write_link<W: Write>(&self, writer: &mut W, src: u64, dst: u64) -> Result<(), WriteFault>
        ensures { OnOk result (Appends (W.contents writer.old) (W.contents writer.new)
            (link_lines self.now (link_index self.now src dst))) }
    {
        match self.link_at(src, dst) {
            Some(at) => self.write_under_way(writer, &self.queues[at]),
            None => Ok(()),
        }
    }

    // Writes the chunks on the link of `queue` that were cut and aren't loaded yet, the oldest
    // first.
    fn write_under_way<W: Write>(&self, writer: &mut W, queue: &Queue) -> Result<(), WriteFault>
        ensures { OnOk result (Appends (W.contents writer.old) (W.contents writer.new)
            (flat_map way_lines (under_way (link_of self.now queue.now)))) }
    {
        write_slot(writer, self.inbox(queue))?;
        write_queue(writer, queue)?;
        write_slot(writer, self.outbox(queue))
    }
}

// Writes the families in the store of `part`, by rising root key.
fn write_families<W: Write>(
    writer: &mut W,
    part: PartId,
    store: &SlabStore,
) -> Result<(), WriteFault>
    ensures { OnOk result (Appends (W.contents writer.old) (W.contents writer.new)
        (flat_map (at_line part) (families_in store.now))) }
{
    for family in store.families() {
        write_at(writer, part, family)?;
    }
    Ok(())
}

// Writes a chunk, if there is one.
fn write_slot<W: Write>(writer: &mut W, slot: Option<&Chunk>) -> Result<(), WriteFault>
    ensures { OnOk result (Appends (W.contents writer.old) (W.contents writer.new)
        (flat_map way_lines (option_list (option_copied slot.entry)))) }
{
    match slot {
        Some(chunk) => write_way(writer, &chunk.note(), chunk.families()),
        None => Ok(()),
    }
}

// Writes the chunks of a queue, the oldest first.
fn write_queue<W: Write>(writer: &mut W, queue: &Queue) -> Result<(), WriteFault>
    ensures { OnOk result (Appends (W.contents writer.old) (W.contents writer.new)
        (flat_map way_lines queue.now.chunks)) }
{
    let (front, back) = queue.as_slices();
    write_chunks(writer, front)?;
    write_chunks(writer, back)
}

// Writes `chunks` in their order.
fn write_chunks<W: Write>(writer: &mut W, chunks: &[Chunk]) -> Result<(), WriteFault>
    ensures { OnOk result (Appends (W.contents writer.old) (W.contents writer.new)
        (flat_map way_lines chunks.now)) }
{
    for chunk in chunks {
        write_way(writer, &chunk.note(), chunk.families())?;
    }
    Ok(())
}
