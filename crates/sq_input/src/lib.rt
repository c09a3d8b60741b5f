//! Inputs: assembled of files and a main input; rows from a file of rows, or from a table of
//! comma-separated values; a reader that keeps the lines that it read last; and what doesn't fit in
//! a faulty line.
#![tactic(auto)]

mod bare_lines;
mod columns;
mod csv_rows;
mod faulty_lines;
mod faulty_plans;
mod field_place;
mod form;
mod input_lines;
mod input_plans;
mod inserting;
mod line_by_line;
mod longest;
mod once;
mod open_field;
mod recalling;
mod record_flaw;
mod record_lines;
mod row_lines;
mod stages;
mod told;
mod told_column;
mod wanted;
mod widths;
mod words;
mod written_table;

pub use bare_lines::BareLines;
pub use columns::NOTE_COLUMN;
pub use csv_rows::CsvRows;
pub use faulty_lines::{LineFlaw, job_flaw, plan_line_flaw, row_flaw, sizes_flaw};
pub use faulty_plans::{PlanFlaw, plan_flaw};
pub use input_plans::{PLAN_ROOM, plan_lines, plan_text};
pub use inserting::Inserting;
pub use longest::LongRange;
pub use once::Once;
pub use recalling::{Recalled, Recalling};
pub use record_flaw::RecordFlaw;
pub use record_lines::RecordLines;
pub use row_lines::{NO_ROW, RowLines};
pub use stages::has_unread_stages;
pub use told::{ToldFlaw, ToldLine, ToldWord};
pub use told_column::ToldColumn;
pub use wanted::Wanted;
pub use widths::{MoveLines, SegmentFlaw, ToldSegments, segment_flaw};
pub use words::{job_word, opening_word};
pub use written_table::table_of;
