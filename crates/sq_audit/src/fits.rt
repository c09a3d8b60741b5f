// Whether all parts of what was gathered exist and fit together.
ghost use Rattle.std.specs.Prelude.{◌≡◌, count_by, IfOk};
ghost use Rattle.std.specs.Bool.{Decides};
ghost use Rattle.sq_gather.specs.Prelude.{IsOpening, HasEachPart, FitTogether};
ghost use Rattle.sq_audit.specs.Located.{entries_in, ListsAll};
ghost use Rattle.sq_audit.specs.Fits.{is_of_link, AreKnownLinks, HasOne, HaveOneEach};

use crate::located::Located;
use crate::notes::links_fit;
use crate::placed::are_placed;
use crate::statuses::{are_complete, have_grown};
use sq_gather::{ClosedLink, Gathered, Link, Opening, Recon};
use std::alloc::{AllocError, Global};

/// Returns true if all parts of `g` exist and fit together; `all` lists all its families.
pub(crate) fn fit(
    alloc: Global,
    opening: &Opening,
    g: &Gathered,
    all: &[Located],
) -> Result<bool, AllocError>
    requires { ListsAll g.now (entries_in all.now) }
    ensures { IfOk result (λ fit. Decides fit (FitTogether opening.now g.now)) }
{
    if !has_parts(opening, g) {
        return Ok(false);
    }
    if !have_grown(&g.statuses) {
        return Ok(false);
    }
    if !links_fit(alloc, opening, g)? {
        return Ok(false);
    }
    if !are_complete(alloc, g)? {
        return Ok(false);
    }
    are_placed(alloc, opening, g, all)
}

// Returns true if there is a store for each partition, a link wherever a range moves in the stage,
// and a tree for each segment.
fn has_parts(opening: &Opening, g: &Gathered) -> bool
    ensures parts { Decides result (HasEachPart opening.now g.now) }
    ensures opening { IsOpening opening.now }
{
    let recon = opening.recon();
    if g.stores.len() != usize::from(opening.old_plan().parts()) {
        return false;
    }
    if g.statuses.len() != recon.segments().len() {
        return false;
    }
    if !are_known_links(recon, g.stage, recon.links(), &g.links) {
        return false;
    }
    have_one_each(recon, g.stage, recon.links(), &g.links)
}

fn are_known_links(recon: &Recon, stage: u64, links: &[Link], gathered: &[ClosedLink]) -> bool
    ensures { Decides result (AreKnownLinks recon.now stage links.now gathered.now) }
{
    for link in gathered {
        let ends = Link {
            src: link.src,
            dst: link.dst,
        };
        if !links.contains(&ends) {
            return false;
        }
        if recon.stage_on(ends.src, ends.dst) != stage {
            return false;
        }
    }
    true
}

// Returns true if each of `links` that belongs to the stage was gathered once.
fn have_one_each(recon: &Recon, stage: u64, links: &[Link], gathered: &[ClosedLink]) -> bool
    ensures { Decides result (HaveOneEach recon.now stage links.now gathered.now) }
{
    for link in links {
        if !has_one(recon, stage, gathered, *link) {
            return false;
        }
    }
    true
}

// Returns true if `link` was gathered once or does not belong to the stage.
fn has_one(recon: &Recon, stage: u64, gathered: &[ClosedLink], link: Link) -> bool
    ensures { Decides result (HasOne recon.now stage gathered.now link) }
{
    if recon.stage_on(link.src, link.dst) != stage {
        return true;
    }
    count(gathered, link) == 1
}

// Returns how often `link` was gathered.
fn count(gathered: &[ClosedLink], link: Link) -> usize
    ensures { result ≡ count_by (is_of_link link) gathered.now }
{
    let mut count = 0;
    for at in gathered {
        if at.src == link.src && at.dst == link.dst {
            count += 1;
        }
    }
    count
}
