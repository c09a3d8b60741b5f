// The field of a table that is being read.
ghost use Rattle.std.specs.Prelude.{◌≡◌, ◌≢◌, ◌≤◌, ◌+◌, ◌⊎◌, ◌↔◌, IfOk, IfErr, IsSome, IfSome, IfNone};
ghost use Rattle.csv.specs.declared.parser.State.{State};
ghost use Rattle.csv.specs.Machine.{step};
ghost use Rattle.csv.specs.Reading.{default_config};
ghost use Rattle.sq_input.specs.Fields.{field_place, IsUsual};

use crate::field_place::{COMMA, FieldPlace};
use crate::record_flaw::{PlacedFlaw, RecordFlaw};

/// The most bytes of a field that are read: enough for `hex:` and the digits of a note of 256
/// bytes, one more than a note may have.
pub(crate) const LONGEST_FIELD: usize = 516;

/// The last column that is read, from 0: the one after the last column of a row.
pub(crate) const LAST_COLUMN: usize = 5;

/// The field that is being read.
#[derive(Clone, Copy, Debug, PartialEq, Eq)]
pub(crate) struct OpenField {
    /// The place at which the bytes read so far end.
    pub(crate) place: FieldPlace,
    /// Its column, from 0.
    pub(crate) column: usize,
    /// How many bytes it has so far.
    pub(crate) length: usize,
    /// The line of the table on which it begins.
    line: u64,
}

impl OpenField {
    /// The first field of a record, before its first byte.
    pub(crate) fn first() -> OpenField
        ensures place { result.place ≡ FieldPlace.Start }
        ensures column { result.column ≡ 0 }
        ensures length { result.length ≡ 0 }
    {
        OpenField {
            place: FieldPlace::Start,
            column: 0,
            length: 0,
            line: 0,
        }
    }

    /// The field that is being read after `byte`, which is on `line` of the table. An error cuts
    /// the record off before `byte`: no row has that many columns or so long a field.
    pub(crate) fn with(self, byte: u8, line: u64) -> Result<OpenField, Option<PlacedFlaw>>
        ensures place { IfOk result (λ field. (state : State) → IsUsual state
            → self.place ≡ field_place state
            → field.place ≡ field_place (step default_config state byte).0) }
        ensures column { IfOk result (λ field. self.column ≤ LAST_COLUMN
            → field.column ≤ LAST_COLUMN) }
        ensures length { IfOk result (λ field. field.length ≤ LONGEST_FIELD) }
        ensures line { IfOk result (λ field. field.place ≢ FieldPlace.Start
            → self.place ≢ FieldPlace.Start → field.line ≡ self.line) }
        ensures begun { IfOk result (λ field. field.place ≢ FieldPlace.Start
            → self.place ≡ FieldPlace.Start → field.line ≡ line) }
        ensures cut { IfErr result (λ flaw.
            (LAST_COLUMN ≤ self.column) ⊎ (LONGEST_FIELD ≤ self.length)) }
        ensures flaw { IfErr result (λ flaw. IfSome flaw (λ placed. placed.line ≡ self.line)) }
    {
        let place = self.place.after(byte);
        if place == FieldPlace::Start {
            return self.next(byte).ok_or(None);
        }
        let length = self.length_in(place);
        if length > LONGEST_FIELD {
            return Err(self.long_flaw(place));
        }
        let line = if self.place == FieldPlace::Start {
            line
        } else {
            self.line
        };
        Ok(OpenField {
            place,
            column: self.column,
            length,
            line,
        })
    }

    /// The flaw of a table that ends here: inside quotes it has one, outside them `None`.
    pub(crate) fn flaw_at_end(self) -> Option<PlacedFlaw>
        ensures quoted { IsSome result ↔ (self.place ≡ FieldPlace.Quoted) }
        ensures line { IfSome result (λ placed. placed.line ≡ self.line) }
    {
        let column = self.column.saturating_add(1);
        (self.place == FieldPlace::Quoted).then_some(PlacedFlaw {
            line: self.line,
            flaw: RecordFlaw::OpenQuote { column },
        })
    }

    // How many bytes the field has after one more, which leads to `place`. The quotes around a
    // field don't count.
    fn length_in(self, place: FieldPlace) -> usize
        ensures { result ≤ self.length + 1 }
    {
        match (self.place, place) {
            (FieldPlace::Start, FieldPlace::Quoted) | (_, FieldPlace::AfterQuote) => self.length,
            _ => self.length.saturating_add(1),
        }
    }

    // The field after `byte`, which ends this one; `None` if no row has that many fields.
    fn next(self, byte: u8) -> Option<OpenField>
        ensures none { IfNone result (LAST_COLUMN ≤ self.column) }
        ensures place { IfSome result (λ field. field.place ≡ FieldPlace.Start) }
        ensures column { IfSome result (λ field. field.column ≤ LAST_COLUMN) }
        ensures length { IfSome result (λ field. field.length ≡ 0) }
    {
        if byte != COMMA {
            return Some(OpenField::first());
        }
        let column = self.column.saturating_add(1);
        (column <= LAST_COLUMN).then_some(OpenField {
            column,
            ..OpenField::first()
        })
    }

    // The flaw of a field that is too long at `place`: inside quotes it has one, outside them
    // `None`.
    fn long_flaw(self, place: FieldPlace) -> Option<PlacedFlaw>
        ensures { IfSome result (λ placed. placed.line ≡ self.line) }
    {
        let column = self.column.saturating_add(1);
        (place == FieldPlace::Quoted).then_some(PlacedFlaw {
            line: self.line,
            flaw: RecordFlaw::LongQuote { column },
        })
    }
}
