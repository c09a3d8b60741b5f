//! Reports. On a live run besides its line: what moved along each link, how jobs ended at each
//! partition and how long they took, the time that the run took, when jobs were answered and
//! segments complete, the answers of the jobs, and the rows at the end. On what an engine did while
//! it was served: a line for each short interval, and a summary of the whole. Each as text, as
//! JSON, as comma-separated values or as a chart.
#![tactic(auto)]

mod account;
mod account_json;
mod answers;
mod chart;
mod chart_intervals;
mod clock;
mod counts;
mod course;
mod csv;
mod engine_figures;
mod engine_json;
mod engine_svg;
mod engine_text;
mod figures;
mod form;
mod json_form;
mod kept;
mod last_second;
mod measure;
mod metrics;
mod moment;
mod moves;
mod notes;
mod open_jobs;
mod part_figures;
mod record;
mod recording;
mod results;
mod run_figures;
mod running;
mod sampling;
mod serve_intervals;
mod spread;
mod summary;
mod svg;
mod table;
mod tallies;
mod text_form;
mod timeline;
mod times;
mod wait_marks;
mod waiting;
mod waits;

pub use clock::Stopwatch;
pub use counts::{LinkCount, PartCount};
pub use csv::write_csv;
pub use engine_figures::{EngineFigures, LeftFigures, MoveFigures, Share};
pub use engine_json::status_json;
pub use engine_text::status_text;
pub use form::FiguresForm;
pub use json_form::figures_json;
pub use metrics::write_metrics;
pub use moment::{Event, Happened, Moment, StageStart, TimedAnswer};
pub use part_figures::PartFigures;
pub use record::ServeRecord;
pub use recording::{RecordingWatch, Records, TimelineForm};
pub use run_figures::{LinkFigures, RunFigures};
pub use running::RunningRecord;
pub use spread::Spread;
pub use summary::Summary;
pub use svg::write_svg;
pub use table::write_summary;
pub use text_form::write_figures;
pub use timeline::Timeline;
pub use times::{Times, write_times};
