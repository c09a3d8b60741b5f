// Lines that repeat what only one line of an input may have.
use sq_text::Words;

// How many words of a line are compared.
const COMPARED: usize = 4;

// The byte that ends a line.
const LINE_END: u8 = b'\n';

/// What only one line of an input may have.
#[derive(Clone, Copy, Debug, PartialEq, Eq)]
pub enum Once {
    /// The id of a job.
    Id,
    /// The root key, the table and the sub key of a row.
    Row,
}

impl Once {
    /// Returns whether two lines have it in common. `line` is a whole line of a job or of a row.
    pub fn is_common(self, line: &[u8], other: &[u8]) -> bool {
        let mut words = Words::of(line);
        let mut others = Words::of(other);
        for at in 0..COMPARED {
            let (Some(word), Some(counterpart)) = (words.next(), others.next()) else {
                return false;
            };
            if self.has(at) && word != counterpart {
                return false;
            }
        }
        true
    }

    // Returns whether the word in place `at` of a line, from 0, is compared.
    fn has(self, at: usize) -> bool {
        match self {
            Once::Id => at == 0 || at == 2,
            Once::Row => true,
        }
    }

    /// The number, from 1, of the first line of `text` that has it in common with `line`.
    pub fn first_in(self, text: &[u8], line: &[u8]) -> Option<usize> {
        let mut lines = text.split_inclusive(|byte| *byte == LINE_END);
        let at = lines.position(|other| self.is_common(line, other))?;
        Some(at.saturating_add(1))
    }
}
