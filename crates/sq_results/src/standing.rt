// The families that exist when a run ends, wherever they are.
ghost use Rattle.std.specs.Prelude.{◌≡◌, ◌≤◌, ◌++◌, length, IfOk, OnOk};
ghost use Rattle.std.specs.List.{flat_map, range_with_len};
ghost use Rattle.sq_store.specs.Prelude.{families_in};
ghost use Rattle.sq_results.specs.RowLines.{lent_values};
ghost use Rattle.sq_results.specs.Standing.{carried, gathered_families, stored_families, link_families, source_families, world_families, WritesRows};

use crate::row_lines::write_families;
use sq_gather::Gathered;
use sq_schema::Family;
use sq_store::{Chunk, SlabStore};
use sq_world::World;
use std::alloc::{AllocError, Global};
use std::io;
use std::io::Write;

/// Writes all rows of a world, as lines of a header, by rising root key and then by key: those in
/// stores, and those in chunks under way. Fails if the writer does, or if memory runs out.
pub fn write_world_rows<W: Write>(alloc: Global, writer: &mut W, world: &World) -> io::Result<()>
    ensures { OnOk result (WritesRows (world_families world.now)
        (W.contents writer.old) (W.contents writer.new)) }
{
    let mut families = Vec::new(alloc);
    let parts = add_stores(&mut families, world)?;
    add_sources(&mut families, world, parts)?;
    write_sorted(writer, families)
}

/// Writes all rows of what was gathered of a run, in the same way.
pub fn write_gathered_rows<W: Write>(alloc: Global, writer: &mut W, g: &Gathered) -> io::Result<()>
    ensures { OnOk result (WritesRows (gathered_families g.now)
        (W.contents writer.old) (W.contents writer.new)) }
{
    let mut families = Vec::new(alloc);
    for store in &g.stores {
        add_store(&mut families, store)?;
    }
    for link in &g.links {
        add_chunks(&mut families, &link.under_way)?;
    }
    write_sorted(writer, families)
}

/// Writes all rows of the partitions' stores, in the same way.
pub fn write_stored_rows<W: Write>(
    alloc: Global,
    writer: &mut W,
    stores: &[SlabStore],
) -> io::Result<()>
    ensures { OnOk result (WritesRows (flat_map families_in stores.now)
        (W.contents writer.old) (W.contents writer.new)) }
{
    let mut families = Vec::new(alloc);
    for store in stores {
        add_store(&mut families, store)?;
    }
    write_sorted(writer, families)
}

// Writes the rows of families, by rising root key.
fn write_sorted<W: Write>(writer: &mut W, mut families: Vec<&Family>) -> io::Result<()>
    ensures { OnOk result (WritesRows (lent_values families.entry.items)
        (W.contents writer.old) (W.contents writer.new)) }
{
    families.sort_by_key(|family| family.root().number())?;
    write_families(writer, &families)
}

fn add_store<'a>(families: &mut Vec<&'a Family>, store: &'a SlabStore) -> Result<(), AllocError>
    ensures { OnOk result (lent_values families.new.items
        ≡ lent_values families.old.items ++ families_in store.now) }
{
    for family in store.families() {
        families.push(family)?;
    }
    Ok(())
}

fn add_chunks<'a>(families: &mut Vec<&'a Family>, chunks: &'a [Chunk]) -> Result<(), AllocError>
    ensures { OnOk result (lent_values families.new.items
        ≡ lent_values families.old.items ++ carried chunks.now) }
{
    for chunk in chunks {
        add_chunk(families, chunk)?;
    }
    Ok(())
}

fn add_chunk<'a>(families: &mut Vec<&'a Family>, chunk: &'a Chunk) -> Result<(), AllocError>
    ensures { OnOk result (lent_values families.new.items
        ≡ lent_values families.old.items ++ chunk.now.families) }
{
    for family in chunk.families() {
        families.push(family)?;
    }
    Ok(())
}

// Adds the families in the stores of a world, and returns how many partitions it has.
fn add_stores<'a>(families: &mut Vec<&'a Family>, world: &'a World) -> Result<u64, AllocError>
    ensures added { OnOk result (lent_values families.new.items
        ≡ lent_values families.old.items ++ stored_families world.now) }
    ensures parts { IfOk result (λ parts. parts ≡ length world.now.cores) }
{
    let mut part: u64 = 0;
    while let Some(store) = world.store(part) {
        add_store(families, store)?;
        let Some(next) = part.checked_add(1) else {
            return Err(AllocError);
        };
        part = next;
    }
    Ok(part)
}

// Adds the families that are under way in a world of `parts` partitions.
fn add_sources<'a>(
    families: &mut Vec<&'a Family>,
    world: &'a World,
    parts: u64,
) -> Result<(), AllocError>
    requires { parts ≡ length world.now.cores }
    ensures { OnOk result (lent_values families.new.items
        ≡ lent_values families.old.items
        ++ flat_map (source_families world.now) (range_with_len 0 parts)) }
{
    for src in 0..parts {
        add_source(families, world, src, parts)?;
    }
    Ok(())
}

// Adds the families that are under way from partition `src`.
fn add_source<'a>(
    families: &mut Vec<&'a Family>,
    world: &'a World,
    src: u64,
    parts: u64,
) -> Result<(), AllocError>
    requires { parts ≡ length world.now.cores }
    ensures { OnOk result (lent_values families.new.items
        ≡ lent_values families.old.items ++ source_families world.now src) }
{
    for dst in 0..parts {
        add_under_way(families, world, src, dst)?;
    }
    Ok(())
}

// Adds the families in the chunks that are under way between two partitions of a world.
fn add_under_way<'a>(
    families: &mut Vec<&'a Family>,
    world: &'a World,
    src: u64,
    dst: u64,
) -> Result<(), AllocError>
    ensures { OnOk result (lent_values families.new.items
        ≡ lent_values families.old.items ++ link_families world.now src dst) }
{
    let mut at: u64 = 0;
    while let Some(chunk) = world.under_way(src, dst, at) {
        add_chunk(families, chunk)?;
        let Some(next) = at.checked_add(1) else {
            return Err(AllocError);
        };
        at = next;
    }
    Ok(())
}
