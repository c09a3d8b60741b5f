// What a client of an engine hears: each job is answered once, and the numbers of each root key are
// 1, 2, 3 and so on.
use crate::failure::Failure;
use crate::heard::Heard;
use crate::plans::{PARTS, ROOTS};
use std::alloc::Global;

/// What was heard of jobs, each of which adds 1 to the number of its root key, which begins at 0.
/// Their ids are 0, 1, 2 and so on.
#[derive(Drop)]
pub struct Hearing {
    // For each id the root key of its job, and the number in the job's answer, or 0 before that.
    asked: Vec<(u64, u64)>,
    count: u64,
    // The latest number that was heard, by partition and root key.
    latest: Vec<u64>,
}

impl Hearing {
    /// A hearing of no jobs. Fails if memory runs out.
    pub fn new(alloc: Global) -> Result<Hearing, Failure> {
        match vec![in alloc; 0; PARTS as usize * ROOTS as usize] {
            Ok(latest) => Ok(Hearing {
                asked: Vec::new(alloc),
                count: 0,
                latest,
            }),
            Err(_) => Err(Failure::Memory),
        }
    }

    /// How many jobs were answered.
    pub(crate) fn count(&self) -> u64 {
        self.count
    }

    /// Records that one more job is asked for, on the root key `root`. Fails if memory runs out.
    pub fn ask(&mut self, root: u64) -> Result<(), Failure> {
        match self.asked.push((root, 0)) {
            Ok(()) => Ok(()),
            Err(_) => Err(Failure::Memory),
        }
    }

    /// Hears an answer of partition `part`. Fails if the numbers of a root key don't rise there, or
    /// if `hear` does.
    pub fn hear_from(&mut self, part: u8, heard: Heard) -> Result<(), Failure> {
        if heard.root >= ROOTS {
            return Err(Failure::WrongAnswer);
        }
        let place = u64::from(part) * ROOTS + heard.root;
        let Some(latest) = self.latest.get_mut(place as usize) else {
            return Err(Failure::WrongAnswer);
        };
        if heard.number <= *latest {
            return Err(Failure::OutOfOrder);
        }
        *latest = heard.number;
        self.hear(heard)
    }

    /// Hears an answer. Fails if its job doesn't exist, was answered before, or is on another root
    /// key, or if the number is 0.
    pub(crate) fn hear(&mut self, heard: Heard) -> Result<(), Failure> {
        let Some(asked) = self.asked.get_mut(heard.id as usize) else {
            return Err(Failure::NoSuchJob);
        };
        if asked.1 > 0 {
            return Err(Failure::AnsweredTwice);
        }
        if asked.0 != heard.root || heard.number == 0 {
            return Err(Failure::WrongAnswer);
        }
        asked.1 = heard.number;
        self.count = self.count.saturating_add(1);
        Ok(())
    }

    /// Fails unless each job was answered, and the numbers of each root key are 1, 2, 3 and so on.
    pub fn judge(self) -> Result<(), Failure> {
        let Hearing {
            mut asked,
            count,
            latest: _,
        } = self;
        if count < asked.len() as u64 {
            return Err(Failure::Unanswered);
        }
        asked.sort_unstable();
        judge_numbers(&asked)
    }
}

// Fails unless the numbers of each root key are 1, 2, 3 and so on; `numbers` are sorted pairs of a
// root key and a number.
fn judge_numbers(numbers: &[(u64, u64)]) -> Result<(), Failure> {
    let mut last = (0u64, 0u64);
    for (root, number) in numbers {
        let before: u64 = if last.0 == *root { last.1 } else { 0 };
        if before.checked_add(1) != Some(*number) {
            return Err(Failure::WrongNumber);
        }
        last = (*root, *number);
    }
    Ok(())
}
