// Counts over the stages of a run.
ghost use Rattle.std.specs.Prelude.{◌≡◌, [], ◌++◌, map, IfOk, OnOk, OnErr};
ghost use Rattle.std.specs.List.{range_with_len};
ghost use Rattle.sq_report.specs.Counts.{link_count};
ghost use Rattle.sq_report.specs.SummaryValue.{count_after, counts_after};

use crate::counts::{LinkCount, PartCount, count_link};
use sq_driver::{Collector, TellingNode};
use sq_gather::{ClosedLink, Gathered};
use sq_store::SlabStore;
use std::alloc::{AllocError, Global};
use std::marker::Model;

/// Counts over the stages of a run: what moved along each link, and how jobs ended at each
/// partition. Contracts see a `SummaryValue`.
#[derive(Debug, Drop)]
pub struct Summary {
    links: Vec<LinkCount>,
    parts: Vec<PartCount>,
}

impl Model for Summary {
    ghost use Rattle.sq_report.specs.SummaryValue.{SummaryValue};

    ghost Value = { SummaryValue };

    ghost view = { λ s. record { links = s.links.items; parts = s.parts.items } };
}

impl Summary {
    pub fn new(alloc: Global) -> Summary
        ensures { result ≡ record { links = []; parts = [] } }
    {
        Summary {
            links: Vec::new(alloc),
            parts: Vec::new(alloc),
        }
    }

    /// Adds the receipts of the nodes of a stage, which are in the order of their partitions; a
    /// teller has those of this stage alone. Fails, and adds nothing, if memory runs out.
    pub fn add_told(&mut self, pairs: &[TellingNode<Collector>]) -> Result<(), AllocError>
        ensures ok { OnOk result (self.new
            ≡ record self.old { parts = counts_after self.old.parts pairs.now }) }
        ensures err { OnErr result (self.new ≡ self.old) }
    {
        self.parts = count_parts(&self.parts, pairs)?;
        Ok(())
    }

    /// Adds what moved along the links of a stage, by what was gathered of it. Fails, and adds
    /// nothing, if memory runs out.
    pub fn add_links(&mut self, g: &Gathered) -> Result<(), AllocError>
        ensures ok { OnOk result (self.new
            ≡ record self.old {
              links = self.old.links ++ map
                  (link_count g.now.stores) g.now.links;
            }) }
        ensures err { OnErr result (self.new ≡ self.old) }
    {
        let mut counts = count_links(&g.stores, &g.links)?;
        self.links.append(&mut counts)
    }

    /// What moved along each link, stage by stage.
    pub fn links(&self) -> &[LinkCount]
        ensures { result.now ≡ self.now.links }
    {
        &self.links
    }

    /// How jobs ended at each partition.
    pub fn parts(&self) -> &[PartCount]
        ensures { result.now ≡ self.now.parts }
    {
        &self.parts
    }
}

// The counts of each partition, with the receipts of its node.
fn count_parts(
    parts: &Vec<PartCount>,
    pairs: &[TellingNode<Collector>],
) -> Result<Vec<PartCount>, AllocError>
    ensures { IfOk result (λ counts. counts.items ≡ counts_after parts.now.items pairs.now) }
{
    let mut counts = Vec::new(*parts.allocator());
    for part in 0..parts.len().max(pairs.len()) {
        counts.push(count_part(parts, pairs, part))?;
    }
    Ok(counts)
}

// The counts of a partition, with the receipts of its node, if there is one.
fn count_part(parts: &[PartCount], pairs: &[TellingNode<Collector>], part: usize) -> PartCount
    ensures { result ≡ count_after parts.now pairs.now part }
{
    let so_far = parts.get(part).copied().unwrap_or(PartCount::NONE);
    match pairs.get(part) {
        Some(pair) => so_far.with(&pair.teller.receipts),
        None => so_far.with(&[]),
    }
}

// What moved along each link; `stores` are those of the partitions.
fn count_links(stores: &[SlabStore], links: &Vec<ClosedLink>) -> Result<Vec<LinkCount>, AllocError>
    ensures { IfOk result (λ counts. counts.items ≡ map (link_count stores.now) links.now.items) }
{
    let mut counts = Vec::new(*links.allocator());
    for link in links {
        counts.push(count_link(stores, link))?;
    }
    Ok(counts)
}
