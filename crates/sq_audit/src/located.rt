// The gathered families, each with its site.
ghost use Rattle.std.specs.Prelude.{◌≡◌, ◌++◌, ◌∷◌, [], List, map, IfOk, OnOk};
ghost use Rattle.std.specs.FinMap.{get};
ghost use Rattle.sq_gather.specs.Prelude.{FamilyValue, family_in};
ghost use Rattle.sq_audit.specs.Located.{spot_of, entries_in, ListsAll, ListsStored, AreByRoot, AddsAll, AddsLink};

use sq_gather::{Chunk, ClosedLink, Family, Gathered, SlabStore};
use std::alloc::{AllocError, Global};

/// Where a family is: in a store or in a chunk, by their places, counted from 0.
#[derive(Clone, Copy, Debug, PartialEq, Eq)]
pub(crate) enum Site {
    Store(u32),
    Chunk { link: u16, chunk: u32 },
}

/// A family, and where it is.
#[derive(Clone, Copy, Debug)]
pub(crate) struct Located<'a> {
    pub(crate) site: Site,
    pub(crate) family: &'a Family,
}

/// Returns all gathered families, sorted by root key.
pub(crate) fn locate(alloc: Global, g: &Gathered) -> Result<Vec<Located<'_>>, AllocError>
    ensures all { IfOk result (λ all. ListsAll g.now (entries_in all.items)) }
    ensures rise { IfOk result (λ all. AreByRoot (entries_in all.items)) }
{
    let mut all = list(alloc, g)?;
    all.sort_unstable_by_key(|located| located.family.root().number());
    Ok(all)
}

// Returns all gathered families.
fn list(alloc: Global, g: &Gathered) -> Result<Vec<Located<'_>>, AllocError>
    ensures { IfOk result (λ all. ListsAll g.now (entries_in all.items)) }
{
    let mut all = list_stored(alloc, g)?;
    for (at, link) in g.links.iter().enumerate() {
        let at = to_u16(at)?;
        add_under_way(&mut all, at, link)?;
    }
    Ok(all)
}

// Returns the families in stores.
fn list_stored(alloc: Global, g: &Gathered) -> Result<Vec<Located<'_>>, AllocError>
    ensures { IfOk result (λ all. ListsStored g.now (entries_in all.items)) }
{
    let mut all = Vec::with_capacity(alloc, count_stored(g))?;
    for (part, store) in g.stores.iter().enumerate() {
        let part = to_u32(part)?;
        add_stored(&mut all, Site::Store(part), store)?;
    }
    Ok(all)
}

// Counts the families in stores, for the room that they take in a list.
fn count_stored(g: &Gathered) -> usize {
    let mut count: usize = 0;
    for store in &g.stores {
        count = count.saturating_add(store.len());
    }
    count
}

// Returns `place`, which has at most 32 bits unless its list is longer than memory is.
fn to_u32(place: usize) -> Result<u32, AllocError>
    ensures { IfOk result (λ number. number ≡ place) }
{
    u32::try_from(place).map_err(|_| AllocError)
}

// Returns `place`, which has at most 16 bits: there are fewer links.
fn to_u16(place: usize) -> Result<u16, AllocError>
    ensures { IfOk result (λ number. number ≡ place) }
{
    u16::try_from(place).map_err(|_| AllocError)
}

// Adds the families of `store`.
fn add_stored<'a>(
    all: &mut Vec<Located<'a>>,
    site: Site,
    store: &'a SlabStore,
) -> Result<(), AllocError>
    ensures { OnOk result (AddsAll (spot_of site) (get store.now) (entries_in all.old.items)
        (entries_in all.new.items)) }
{
    for family in store.families() {
        // For the proof alone: the log belongs to the family's own root key, as every family's
        // does.
        family.position();
        all.push(Located { site, family })?;
    }
    Ok(())
}

// Adds the families of the chunks that are under way on link `of`.
fn add_under_way<'a>(
    all: &mut Vec<Located<'a>>,
    link: u16,
    of: &'a ClosedLink,
) -> Result<(), AllocError>
    ensures { OnOk result (AddsLink link of.now (entries_in all.old.items)
        (entries_in all.new.items)) }
{
    for (chunk, carried) in of.under_way.iter().enumerate() {
        let chunk = to_u32(chunk)?;
        add_carried(all, Site::Chunk { link, chunk }, carried)?;
    }
    Ok(())
}

fn add_carried<'a>(
    all: &mut Vec<Located<'a>>,
    site: Site,
    chunk: &'a Chunk,
) -> Result<(), AllocError>
    ensures { OnOk result (AddsAll (spot_of site) (family_in chunk.now.families)
        (entries_in all.old.items) (entries_in all.new.items)) }
{
    for family in chunk.families() {
        all.push(Located { site, family })?;
    }
    Ok(())
}
