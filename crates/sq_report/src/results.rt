// What a run leaves, kept during the run.
use sq_audit::Job;
use sq_gather::Gathered;
use sq_node::Receipt;
use sq_results::{Replies, write_gathered_rows};
use std::alloc::{AllocError, Global};
use std::io;
use std::io::{ErrorKind, Write};
use std::sync::atomic::{AtomicBool, Ordering};
use std::sync::{Mutex, Wait};

/// The answers of a run's jobs, and whether memory sufficed for all of them.
#[derive(Drop)]
pub(crate) struct KeptReplies {
    replies: Mutex<Replies>,
    is_whole: AtomicBool,
}

impl KeptReplies {
    /// The replies of no jobs.
    pub(crate) fn new(alloc: Global) -> KeptReplies {
        KeptReplies {
            replies: Mutex::new(Replies::new(alloc)),
            is_whole: AtomicBool::new(true),
        }
    }

    /// Records jobs that are posted.
    pub(crate) fn post<R: Wait>(&self, rt: &R, jobs: &[Job]) {
        let mut replies = self.replies.lock(rt);
        for job in jobs {
            self.note(replies.post(job.txn.id()));
        }
    }

    /// Records the answers in receipts.
    pub(crate) fn take<R: Wait>(&self, rt: &R, receipts: &[Receipt]) {
        let taken = self.replies.lock(rt).take(receipts);
        self.note(taken);
    }

    /// Writes the line of each job that was answered, and returns how many weren't. Fails if the
    /// writer does, or if memory ran out for some of them.
    pub(crate) fn write<R: Wait, O: Write>(&self, rt: &R, writer: &mut O) -> io::Result<u64> {
        if !self.is_whole.load(Ordering::SeqCst) {
            return Err(io::Error::from(ErrorKind::OutOfMemory));
        }
        match self.replies.lock(rt).write(writer) {
            Ok(unanswered) => Ok(unanswered),
            Err(_) => Err(io::Error::from(ErrorKind::Other)),
        }
    }

    // Records whether memory sufficed.
    fn note(&self, taken: Result<(), AllocError>) {
        if taken.is_err() {
            self.is_whole.store(false, Ordering::SeqCst);
        }
    }
}

/// The text of the rows at the end of a stage; `None` if memory ran out for it.
#[derive(Drop)]
pub(crate) struct KeptRows {
    text: Mutex<Option<Vec<u8>>>,
}

impl KeptRows {
    /// No rows.
    pub(crate) fn new(alloc: Global) -> KeptRows {
        KeptRows {
            text: Mutex::new(Some(Vec::new(alloc))),
        }
    }

    /// Keeps the rows of what was gathered, and drops those kept before.
    pub(crate) fn keep<R: Wait>(&self, rt: &R, alloc: Global, g: &Gathered) {
        let text = rows_text(alloc, g).ok();
        let mut kept = self.text.lock(rt);
        *kept = text;
    }

    /// Writes the rows that were kept last. Fails if the writer does, or if memory ran out for
    /// them.
    pub(crate) fn write<R: Wait, O: Write>(&self, rt: &R, writer: &mut O) -> io::Result<()> {
        match &*self.text.lock(rt) {
            Some(text) => writer.write_all(text),
            None => Err(io::Error::from(ErrorKind::OutOfMemory)),
        }
    }
}

// The rows of what was gathered, as lines of a header.
fn rows_text(alloc: Global, g: &Gathered) -> io::Result<Vec<u8>> {
    let mut text = Vec::new(alloc);
    write_gathered_rows(alloc, &mut text, g)?;
    Ok(text)
}
