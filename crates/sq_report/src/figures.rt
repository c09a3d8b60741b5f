// The figures of a run, counted while it goes on.
ghost use Rattle.std.specs.Prelude.{◌≡◌, ◌++◌, map, OnOk};
ghost use Rattle.sq_report.specs.Figures.{link_figures};

use crate::counts::{LinkCount, count_link};
use crate::measure::Measure;
use crate::run_figures::LinkFigures;
use sq_gather::{ClosedLink, Gathered};
use sq_store::SlabStore;
use std::alloc::{AllocError, Global};
use std::sync::atomic::{AtomicBool, Ordering};
use std::sync::{Mutex, Wait};

/// What has moved along each link so far, and whether memory sufficed for all of it.
#[derive(Drop)]
pub(crate) struct KeptLinks {
    links: Mutex<Vec<LinkFigures>>,
    is_whole: AtomicBool,
}

impl KeptLinks {
    /// The figures of no stage.
    pub(crate) fn new(alloc: Global) -> KeptLinks {
        KeptLinks {
            links: Mutex::new(Vec::new(alloc)),
            is_whole: AtomicBool::new(true),
        }
    }

    /// Adds what moved along the links of a stage.
    pub(crate) fn add<R: Wait>(&self, rt: &R, g: &Gathered) {
        let added = add_links(&mut self.links.lock(rt), g);
        if added.is_err() {
            self.is_whole.store(false, Ordering::SeqCst);
        }
    }

    /// Returns whether memory sufficed for all of it.
    pub(crate) fn is_whole(&self) -> bool {
        self.is_whole.load(Ordering::SeqCst)
    }

    /// What moved along each link, stage by stage. Fails if memory runs out.
    pub(crate) fn links<R: Wait>(&self, rt: &R) -> Result<Vec<LinkFigures>, AllocError> {
        self.links.lock(rt).clone()
    }
}

// Adds what moved along each link, by what was gathered of a stage.
fn add_links(links: &mut Vec<LinkFigures>, g: &Gathered) -> Result<(), AllocError>
    ensures { OnOk result (links.new.items
        ≡ links.old.items ++ map (link_figures g.now.stage g.now.stores) g.now.links) }
{
    for link in &g.links {
        links.push(link_figures(g.stage, &g.stores, link))?;
    }
    Ok(())
}

// What moved along a link in a stage; `stores` are those of the partitions.
fn link_figures(stage: u64, stores: &[SlabStore], link: &ClosedLink) -> LinkFigures
    ensures { result ≡ link_figures stage stores.now link.now }
{
    let LinkCount {
        src,
        dst,
        keys,
        families,
        chunks,
    } = count_link(stores, link);
    LinkFigures {
        stage,
        src: src.number(),
        dst: dst.number(),
        keys,
        families,
        rows: Measure::Rows.of_link(stores, link),
        bytes: Measure::Bytes.of_link(stores, link),
        chunks,
    }
}
