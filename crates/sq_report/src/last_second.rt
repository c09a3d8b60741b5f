// What an engine that is served did in the last second.
use crate::spread::{Spread, spread_of};
use std::alloc::{AllocError, Global};

// The length of a tenth of a second, and of a second, in microseconds.
const MICROS_IN_TENTH: u64 = 100_000;

const MICROS_IN_SECOND: u128 = 1_000_000;

// The last second is this many tenths: the running one and those before it.
const TENTHS: u64 = 10;

/// What an engine did in the last second, tenth by tenth.
#[derive(Drop)]
pub(crate) struct LastSecond {
    tenths: Vec<Tenth>,
    alloc: Global,
}

// A tenth of a second.
#[derive(Drop)]
struct Tenth {
    // Its number since the engine began, from 0.
    number: u64,
    families: u64,
    // How long jobs waited that were answered in it, in microseconds.
    waits: Vec<u64>,
}

impl Tenth {
    // A tenth in which nothing was done so far.
    fn new(alloc: Global, number: u64) -> Tenth {
        Tenth {
            number,
            families: 0,
            waits: Vec::new(alloc),
        }
    }
}

impl LastSecond {
    /// A second in which nothing was done. Fails if memory runs out.
    pub(crate) fn new(alloc: Global) -> Result<LastSecond, AllocError> {
        let mut tenths = Vec::new(alloc);
        for number in 0..TENTHS {
            tenths.push(Tenth::new(alloc, number))?;
        }
        Ok(LastSecond { tenths, alloc })
    }

    /// Records that `families` were moved at `micros`.
    pub(crate) fn note_families(&mut self, micros: u64, families: u64) {
        let alloc = self.alloc;
        let number = micros / MICROS_IN_TENTH;
        if let Some(tenth) = self.tenths.get_mut((number % TENTHS) as usize) {
            if tenth.number != number {
                *tenth = Tenth::new(alloc, number);
            }
            tenth.families = tenth.families.saturating_add(families);
        }
    }

    /// Forgets what was moved.
    pub(crate) fn forget_families(&mut self) {
        for tenth in self.tenths.iter_mut() {
            tenth.families = 0;
        }
    }

    /// Records that a job was answered at `micros` that had waited for `wait` microseconds. Returns
    /// how many waits are recorded of the same tenth of a second. Fails if memory runs out.
    pub(crate) fn note_wait(&mut self, micros: u64, wait: u64) -> Result<u64, AllocError> {
        let alloc = self.alloc;
        let number = micros / MICROS_IN_TENTH;
        match self.tenths.get_mut((number % TENTHS) as usize) {
            Some(tenth) => {
                if tenth.number != number {
                    *tenth = Tenth::new(alloc, number);
                }
                tenth.waits.push(wait)?;
                Ok(tenth.waits.len() as u64)
            }
            None => Ok(0),
        }
    }

    /// How many families were moved a second, by the second before `micros`, or by the part of it
    /// since `began`.
    pub(crate) fn rate(&self, micros: u64, began: u64) -> u64 {
        let number = micros / MICROS_IN_TENTH;
        let mut families: u64 = 0;
        for tenth in &self.tenths {
            if is_within(tenth.number, number) {
                families = families.saturating_add(tenth.families);
            }
        }
        let first = number
            .saturating_sub(TENTHS - 1)
            .saturating_mul(MICROS_IN_TENTH);
        per_second(families, micros.saturating_sub(first.max(began)))
    }

    /// The spread of the recorded waits of the second before `micros`; `None` if there are none.
    /// Fails if memory runs out.
    pub(crate) fn waits(&self, micros: u64) -> Result<Option<Spread>, AllocError> {
        let number = micros / MICROS_IN_TENTH;
        let mut waits = Vec::new(self.alloc);
        for tenth in &self.tenths {
            if is_within(tenth.number, number) {
                waits.extend_from_slice(&tenth.waits)?;
            }
        }
        Ok(spread_of(waits))
    }
}

// Returns whether the tenth `number` belongs to the second that ends with the tenth `last`.
fn is_within(number: u64, last: u64) -> bool {
    number <= last && last - number < TENTHS
}

// How many a second `count` in `span` microseconds are; at most the largest 64-bit number. In no
// time it is 0.
fn per_second(count: u64, span: u64) -> u64 {
    let product = u128::from(count).saturating_mul(MICROS_IN_SECOND);
    match product.checked_div(u128::from(span)) {
        Some(rate) => rate.min(u128::from(u64::MAX)) as u64,
        None => 0,
    }
}
