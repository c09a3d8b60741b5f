// A summary that is counted during a run.
use crate::counts::PartCount;
use crate::summary::Summary;
use crate::table::write_summary;
use sq_driver::{Collector, TellingNode};
use sq_gather::Gathered;
use std::alloc::{AllocError, Global};
use std::io;
use std::io::Write;
use std::sync::atomic::{AtomicBool, Ordering};
use std::sync::{Mutex, Wait};

/// A summary that is counted during a run, and whether memory sufficed to count all.
#[derive(Drop)]
pub(crate) struct KeptSummary {
    summary: Mutex<Summary>,
    is_whole: AtomicBool,
}

impl KeptSummary {
    pub(crate) fn new(alloc: Global) -> KeptSummary {
        KeptSummary {
            summary: Mutex::new(Summary::new(alloc)),
            is_whole: AtomicBool::new(true),
        }
    }

    /// Adds the receipts of the nodes of a stage.
    pub(crate) fn add_told<R: Wait>(&self, rt: &R, pairs: &[TellingNode<Collector>]) {
        let added = self.summary.lock(rt).add_told(pairs);
        self.note(added);
    }

    /// Adds what moved along the links of a stage.
    pub(crate) fn add_links<R: Wait>(&self, rt: &R, g: &Gathered) {
        let added = self.summary.lock(rt).add_links(g);
        self.note(added);
    }

    /// Writes the summary, and before it a line if memory ran out before all was counted.
    pub(crate) fn write<R: Wait, O: Write>(
        &self,
        rt: &R,
        writer: &mut O,
        waited: &[u64],
    ) -> io::Result<()> {
        if !self.is_whole() {
            writeln!(writer, "memory ran out before all was counted")?;
        }
        let summary = self.summary.lock(rt);
        write_summary(writer, &summary, waited)
    }

    /// How jobs ended at each partition. Fails if memory runs out.
    pub(crate) fn parts<R: Wait>(
        &self,
        rt: &R,
        alloc: Global,
    ) -> Result<Vec<PartCount>, AllocError> {
        let summary = self.summary.lock(rt);
        let mut parts = Vec::new(alloc);
        for part in summary.parts() {
            parts.push(*part)?;
        }
        Ok(parts)
    }

    /// Returns whether memory sufficed to count all.
    pub(crate) fn is_whole(&self) -> bool {
        self.is_whole.load(Ordering::SeqCst)
    }

    // Records whether memory sufficed.
    fn note(&self, added: Result<(), AllocError>) {
        if added.is_err() {
            self.is_whole.store(false, Ordering::SeqCst);
        }
    }
}
