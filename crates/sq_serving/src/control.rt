// The client of an engine's epochs.
use crate::desk::ServeDesk;
use crate::marks::EpochMarks;
use crate::watch::ServeWatch;
use sq_audit::Job;
use sq_engine::{BackOff, Client, Command, PostFault, StageProgress};
use sq_node::Receipt;
use sq_plan::PartId;
use std::io::Write;
use std::sync::Wait;

// How many tries in a row yield to other threads before the client waits for the bell.
const TRIES_AWAKE: u64 = 256;

// The longest wait for the bell, in microseconds.
const LONGEST_WAIT: u64 = 20_000;

/// The client of an engine's epoch: its desk, and the marks for the watch.
#[derive(Drop)]
pub struct Control<'a, W: Write + Drop, V: ServeWatch> {
    pub desk: ServeDesk<W>,
    pub marks: EpochMarks<'a, V>,
}

impl<W: Write + Drop, V: ServeWatch> Control<'_, W, V> {
    // Returns whether the epoch should end: for a wish, if the desk has stopped, or if nothing
    // moves although the desk has a move recorded: an engine that had no memory to come to rest
    // after the last stage does so as its next epoch begins.
    fn ends(&self, progress: StageProgress) -> bool {
        self.desk.has_stopped() || self.desk.has_moved(progress) || self.desk.has_wish()
    }
}

impl<W: Write + Drop, V: ServeWatch> Client for Control<'_, W, V> {
    ghost use Rattle.sq_serving.specs.Becoming.{desk_value, Becomes as DeskBecomes};

    ghost Becomes = { λ old call new.
        DeskBecomes (desk_value W.contents old.desk) call (desk_value W.contents new.desk) };

    fn next(&mut self, progress: StageProgress) -> Command {
        self.marks.begin();
        self.marks.note_progress(progress);
        self.desk.note_stage(progress);
        self.desk.begin_call();
        let is_idle = self.desk.idle_calls != 0;
        let figures = self.desk.figures();
        self.marks.tick(&figures, is_idle);
        if self.ends(progress) {
            self.desk.flush();
            self.marks.end();
            return Command::End;
        }
        let command = self.desk.next_command(self.marks.watch());
        self.marks.offer(&command);
        command
    }

    fn claiming_pumps(&self) -> u64 {
        self.desk.claiming_pumps()
    }

    // Waits for a line, at rest with no open job.
    fn wait<R: Wait>(&self, rt: &R, tries: u64) {
        if tries <= TRIES_AWAKE {
            BackOff::LONG.wait_after(rt, tries);
        } else {
            self.desk.bell.wait(rt, LONGEST_WAIT);
        }
    }

    fn note_answered(&self, part: PartId) {
        self.marks.close(part);
    }

    fn take(&mut self, part: PartId, receipt: Receipt) {
        self.marks.answer(part, &receipt);
        self.desk.take(receipt);
    }

    fn take_back(&mut self, job: Job, fault: PostFault) {
        self.marks.close(job.part);
        self.desk.take_back(job, fault, self.marks.watch());
    }
}
