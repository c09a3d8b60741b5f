// Reads the fields of a line.
ghost use Rattle.std.specs.Prelude.{◌≡◌, ◌^◌, [], ◌∷◌, MatchOption};
ghost use Rattle.sq_text.specs.Fields.{number_below, key_field, signed_field, row_field};
ghost use Rattle.sq_text.specs.Faults.{IsParsed, IsParsedGivenMemory};

use crate::fault::{Malformed, ReadFault};
use crate::note::note;
use crate::number::signed;
use crate::words::Words;
use sq_schema::{Row, RowKey};
use std::alloc::Global;

impl<'a> Words<'a> {
    // Reads the next word, a signed number.
    pub(crate) fn signed(&mut self) -> Result<i64, Malformed>
        ensures { IsParsed (λ n. (n, self.new)) result (signed_field self.old) }
    {
        let word = self.next().ok_or(Malformed)?;
        signed(word).ok_or(Malformed)
    }

    // Reads the next word, a number below 2^8.
    fn table(&mut self) -> Result<u8, Malformed>
        ensures { IsParsed (λ n. (n, self.new)) result (number_below (2 ^ 8) self.old) }
    {
        u8::try_from(self.number()?).map_err(|_| Malformed)
    }

    // Reads the next word, a number below 2^32.
    pub(crate) fn small(&mut self) -> Result<u32, Malformed>
        ensures { IsParsed (λ n. (n, self.new)) result (number_below (2 ^ 32) self.old) }
    {
        u32::try_from(self.number()?).map_err(|_| Malformed)
    }

    // Reads two words: a table and a sub key.
    #[tactic(auto, unfolding(crate::specs::Fields::key_field))]
    pub(crate) fn key(&mut self) -> Result<RowKey, Malformed>
        ensures { IsParsed (λ key. (key, self.new)) result (key_field self.old) }
    {
        let table = self.table()?;
        let sub = self.small()?;
        Ok(RowKey { table, sub })
    }

    // Reads two words: a row's number and its note.
    #[tactic(auto, unfolding(crate::specs::Fields::row_field))]
    pub(crate) fn row(&mut self, alloc: Global) -> Result<Row, ReadFault>
        ensures { IsParsedGivenMemory (λ row. (row, self.new)) result (row_field self.old) }
    {
        let number = self.signed()?;
        let word = self.next_long().ok_or(Malformed)?;
        Ok(Row::new(number, note(alloc, word)?))
    }
}
