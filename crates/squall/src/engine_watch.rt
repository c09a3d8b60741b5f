// The watch of an engine behind a pipe: it records what the engine does, and saves rows.
ghost use Rattle.std.specs.Prelude.{◌≡◌, IfErr};

use crate::engine_progress::EngineProgress;
use crate::metrics_file::MetricsFile;
use crate::outputs::{
    FileText, add_text, are_files, can_be_made, explain_conflict, place_of_part, save_texts,
};
use crate::process_memory::process_memory;
use crate::reasons::Reasons;
use crate::saved_rows::{PlacesInUse, Unsavable};
use crate::serving::EngineInput;
use crate::session::{REFUSED, as_named, refuse_for_memory};
use crate::source::is_table;
use sq_input::table_of;
use sq_outputs::{Output, conflict_among, place_of, place_of_standard_input};
use sq_report::{
    EngineFigures, FiguresForm, RunningRecord, ServeRecord, Stopwatch, TimelineForm, status_json,
    status_text,
};
use sq_serving::{
    DeskFigures, FaultyHeader, LineRefusal, RefusedMove, RowsLeft, ServeMark, ServeWatch,
};
use std::alloc::AllocError;
use std::io;
use std::io::ErrorKind;
use std::rt::Files;
use std::sync::{Mutex, Wait};
use std::time::Clock;

/// Watches an engine: records what it does if a report is asked for, and saves its rows in files,
/// but never in one that the engine reads or that a report goes into.
#[derive(Drop)]
pub struct EngineWatch<'a, T> {
    rt: &'a T,
    stopwatch: Stopwatch<'a, T>,
    record: Option<Mutex<ServeRecord>>,
    // For figures while the engine runs.
    running: Mutex<RunningRecord>,
    metrics: Option<MetricsFile<'a, T>>,
    progress: EngineProgress<'a, T>,
    // The files in which no rows are saved.
    places: PlacesInUse,
    // The faulty header, if there is one.
    faulty: Mutex<Option<FaultyHeader>>,
    // The lines of the rows at the end, once the engine has left them; `None` in it if memory ran
    // out for them.
    rows: Mutex<Option<Option<Vec<u8>>>>,
    wants_rows: bool,
    /// Explains on standard error why lines are refused.
    pub reasons: Reasons<'a, T>,
}

impl<'a, T: Clock + Wait + Print + Eprint + Files + AllocGlobal> EngineWatch<'a, T> {
    /// A watch for an engine with this input, which shows its progress if `is_shown` is set. Fails
    /// with the exit status 2, and standard error gives the reason, if a report would be written
    /// over a file that the engine reads, over another report, to a name that can't be a file of
    /// its own, or into a folder in which no file can be made, or if memory runs out.
    pub fn new(rt: &'a T, input: EngineInput<'a>, is_shown: bool) -> Result<EngineWatch<'a, T>, u8>
        ensures { IfErr result (λ status. status ≡ 2) }
    {
        match places_of(rt, input) {
            Ok(Some(places)) => Self::with_places(rt, input, is_shown, places),
            Ok(None) => Err(REFUSED),
            Err(_) => Err(refuse_for_memory(rt)),
        }
    }

    // The same; no rows are saved in the files at `places`.
    fn with_places(
        rt: &'a T,
        input: EngineInput<'a>,
        is_shown: bool,
        places: PlacesInUse,
    ) -> Result<EngineWatch<'a, T>, u8>
        ensures { IfErr result (λ status. status ≡ 2) }
    {
        match RunningRecord::new(rt.alloc()) {
            Ok(running) => Ok(EngineWatch {
                rt,
                stopwatch: Stopwatch::start(rt),
                record: record_of(rt, input),
                running: Mutex::new(running),
                metrics: metrics_of(rt, input),
                progress: EngineProgress::new(rt, is_shown),
                places,
                faulty: Mutex::new(None),
                rows: Mutex::new(None),
                wants_rows: input.reports.rows_out.is_some(),
                reasons: Reasons::new(rt, input),
            }),
            Err(_) => {
                drop(places);
                Err(refuse_for_memory(rt))
            }
        }
    }

    /// Ends the watch of an engine that is closed: writes its last figures, and removes the line of
    /// progress.
    pub fn end(&self) {
        self.progress.clear();
        if let Some(metrics) = &self.metrics {
            let micros = self.stopwatch.micros();
            if let Ok(figures) = self.figures(None, process_memory(self.rt), micros) {
                metrics.write(&figures, micros);
            }
        }
    }

    // The figures at `micros` of an engine whose desk shows `desk`, or is closed, and whose process
    // has `memory` bytes, if that is known.
    fn figures(
        &self,
        desk: Option<&DeskFigures<'_>>,
        memory: Option<u64>,
        micros: u64,
    ) -> Result<EngineFigures, AllocError> {
        self.running.lock(self.rt).figures(desk, memory, micros)
    }

    // Writes the figures at `micros` of an engine whose desk shows `desk`, if they are due.
    fn show(&self, desk: &DeskFigures<'_>, micros: u64) {
        let Ok(figures) = self.figures(Some(desk), process_memory(self.rt), micros) else {
            return;
        };
        if let Some(metrics) = &self.metrics {
            if metrics.is_due(micros) {
                self.progress.clear();
                metrics.write(&figures, micros);
            }
        }
        if self.progress.is_due(micros) {
            self.progress.say(&figures, micros);
        }
    }

    // Returns whether figures are due at `micros`.
    fn is_due(&self, micros: u64) -> bool {
        match &self.metrics {
            Some(metrics) if metrics.is_due(micros) => true,
            _ => self.progress.is_due(micros),
        }
    }

    /// Takes the faulty header, if there is one.
    pub fn take_faulty(&self) -> Option<FaultyHeader> {
        self.faulty.lock(self.rt).take()
    }

    /// Writes the requested reports, and the rows at the end. Returns false if one of these files
    /// can't be written; then standard error gives the reason.
    pub fn report(&self, input: EngineInput<'_>) -> bool {
        let mut texts = Vec::new(self.rt.alloc());
        self.add_reports(input, &mut texts)
            && self.add_rows(input.reports.rows_out, &mut texts)
            && save_texts(self.rt, &texts)
    }

    // Adds the requested reports. Returns false if one of them can't be made.
    fn add_reports(&self, input: EngineInput<'_>, texts: &mut Vec<FileText>) -> bool {
        let Some(record) = &self.record else {
            return true;
        };
        let mut record = record.lock(self.rt);
        record.end(self.stopwatch.micros());
        self.add_timeline(input.reports.timeline, &record, texts)
            && self.add_account(input.reports.summary_out, &record, texts)
    }

    // Adds the rows at the end, if they are asked for and the engine has left them: a table of
    // values if the name ends in '.csv'. Returns false if they can't be made.
    fn add_rows(&self, name: Option<&str>, texts: &mut Vec<FileText>) -> bool {
        let (Some(name), Some(rows)) = (name, self.rows.lock(self.rt).take()) else {
            return true;
        };
        let text = match rows {
            Some(lines) => as_named(self.rt.alloc(), name, lines),
            None => Err(io::Error::from(ErrorKind::OutOfMemory)),
        };
        add_text(self.rt, texts, name, text)
    }

    // Saves the rows in `lines` in the file `name`: as a table of values if its name ends in
    // '.csv', else as these lines.
    fn save_as_named(&self, name: &str, lines: &[u8]) -> Result<(), Unsavable> {
        if !is_table(name) {
            return self.places.save(self.rt, name, lines);
        }
        let table = table_of(self.rt.alloc(), lines)?;
        self.places.save(self.rt, name, &table)
    }

    // Adds the timeline, if one is asked for: values if its name ends in '.csv', else a chart.
    // Returns false if it can't be made.
    fn add_timeline(
        &self,
        name: Option<&str>,
        record: &ServeRecord,
        texts: &mut Vec<FileText>,
    ) -> bool {
        let Some(name) = name else {
            return true;
        };
        let mut text = Vec::new(self.rt.alloc());
        let written = match TimelineForm::of_file(name) {
            TimelineForm::Csv => record.write_timeline(&mut text),
            TimelineForm::Svg => record.write_chart(self.rt.alloc(), &mut text),
        };
        add_text(self.rt, texts, name, written.map(|()| text))
    }

    // Adds the summary, if one is asked for: as JSON if its name ends in '.json', else as text.
    // Returns false if it can't be made.
    fn add_account(
        &self,
        name: Option<&str>,
        record: &ServeRecord,
        texts: &mut Vec<FileText>,
    ) -> bool {
        let Some(name) = name else {
            return true;
        };
        let mut text = Vec::new(self.rt.alloc());
        let written = match FiguresForm::of_file(name) {
            FiguresForm::Json => record.write_json(self.rt.alloc(), &mut text),
            FiguresForm::Text => record.write_account(&mut text),
        };
        add_text(self.rt, texts, name, written.map(|()| text))
    }
}

impl<T: Clock + Wait + Print + Eprint + Files + AllocGlobal> ServeWatch for EngineWatch<'_, T> {
    // Nothing is known of what the files of the system hold.
    ghost Saves = { λ _ _ _ _. Unit {0} };

    fn mark(&self, mark: ServeMark) {
        match mark {
            ServeMark::MoveBegins { segments } => self.reasons.begin_move(segments),
            ServeMark::MoveEnds => self.reasons.end_move(),
            _ => {}
        }
        let mut running = self.running.lock(self.rt);
        let is_timed = running.needs_time(&mark);
        let micros = if self.record.is_some() || is_timed {
            self.stopwatch.micros()
        } else {
            0
        };
        running.note(mark, micros);
        drop(running);
        if let Some(record) = &self.record {
            record.lock(self.rt).note(mark, micros);
        }
    }

    fn tick(&self, desk: &DeskFigures<'_>) {
        let micros = self.stopwatch.micros();
        self.running.lock(self.rt).tick(micros);
        if self.is_due(micros) {
            self.show(desk, micros);
        }
    }

    fn status_text(&self, desk: &DeskFigures<'_>) -> Option<String> {
        let figures = self
            .figures(Some(desk), None, self.stopwatch.micros())
            .ok()?;
        status_text(self.rt.alloc(), &figures).ok()
    }

    fn status_json(&self, desk: &DeskFigures<'_>) -> Option<String> {
        let memory = process_memory(self.rt);
        let figures = self
            .figures(Some(desk), memory, self.stopwatch.micros())
            .ok()?;
        status_json(self.rt.alloc(), &figures).ok()
    }

    fn refuses(&self, refusal: LineRefusal<'_>) {
        self.progress.clear();
        self.reasons.tell(refusal);
    }

    fn refuses_move(&self, refused: RefusedMove<'_>) {
        self.progress.clear();
        self.reasons.tell_move(refused);
    }

    fn refuses_header(&self, header: FaultyHeader) {
        *self.faulty.lock(self.rt) = Some(header);
    }

    fn save(&self, name: &str, text: &[u8]) -> io::Result<()> {
        let saved = self.save_as_named(name, text);
        if let Err(why) = &saved {
            self.progress.clear();
            let _ = eprintln!(self.rt; "squall: the file '{name}' can't be written: {why}");
        }
        saved.map_err(io::Error::from)
    }
}

impl<T: Clock + Wait + Print + Eprint + Files + AllocGlobal> RowsLeft for EngineWatch<'_, T> {
    // Nothing is known of what a lock keeps.
    ghost Leaves = { λ _ _. Unit {0} };

    fn wants_rows(&self) -> bool {
        self.wants_rows
    }

    fn leaves_rows(&self, lines: Vec<u8>) {
        *self.rows.lock(self.rt) = Some(Some(lines));
    }

    fn lacks_rows(&self) {
        *self.rows.lock(self.rt) = Some(None);
    }
}

// A record, if a report is asked for.
fn record_of<T: AllocGlobal>(rt: &T, input: EngineInput<'_>) -> Option<Mutex<ServeRecord>> {
    let reports = input.reports;
    if reports.summary_out.is_none() && reports.timeline.is_none() {
        return None;
    }
    Some(Mutex::new(ServeRecord::new(rt.alloc())))
}

// The file for figures, if one is asked for.
fn metrics_of<'a, T: Eprint + Files + AllocGlobal>(
    rt: &'a T,
    input: EngineInput<'a>,
) -> Option<MetricsFile<'a, T>> {
    match input.reports.metrics {
        Some(name) => Some(MetricsFile::new(rt, name)),
        None => None,
    }
}

// The places of the files that an engine with this input reads, and of its reports. Returns `None`,
// and standard error gives the reason, if a report wouldn't be a file of its own, can't be made, or
// would be written over a file that the engine reads or over another report. Fails if memory runs
// out.
fn places_of<T: Eprint + Files + AllocGlobal>(
    rt: &T,
    input: EngineInput<'_>,
) -> io::Result<Option<PlacesInUse>> {
    let read = read_places(rt, input)?;
    let outputs = outputs_of(rt, input)?;
    if may_report(rt, &outputs, &read)? {
        Ok(Some(PlacesInUse::new(rt, read, places_among(rt, outputs)?)?))
    } else {
        Ok(None)
    }
}

// Returns whether each report would be a file of its own, can be made, and would be written neither
// over another report nor over a file at one of `places`; else standard error says which one. Fails
// if memory runs out.
fn may_report<T: Eprint + Files + AllocGlobal>(
    rt: &T,
    outputs: &[Output<'_>],
    places: &[String],
) -> io::Result<bool> {
    if !are_files(rt, outputs)? {
        return Ok(false);
    }
    match conflict_among(outputs, places) {
        Some(conflict) => {
            explain_conflict(rt, conflict);
            Ok(false)
        }
        None => can_be_made(rt, outputs),
    }
}

// The places of outputs.
fn places_among<T: AllocGlobal>(rt: &T, outputs: Vec<Output<'_>>) -> io::Result<Vec<String>> {
    let mut places = Vec::new(rt.alloc());
    for output in outputs {
        places.push(output.place)?;
    }
    Ok(places)
}

// The places of the files that an engine with this input reads, standard input included.
fn read_places<T: Files + AllocGlobal>(rt: &T, input: EngineInput<'_>) -> io::Result<Vec<String>> {
    let mut places = Vec::new(rt.alloc());
    add_read_places(rt, input, &mut places)?;
    Ok(places)
}

// Adds the places of the files that an engine with this input reads.
fn add_read_places<T: Files + AllocGlobal>(
    rt: &T,
    input: EngineInput<'_>,
    places: &mut Vec<String>,
) -> io::Result<()> {
    let names = [
        input.file,
        input.files.map(|files| files.plan),
        input.files.and_then(|files| files.rows),
    ];
    for name in names {
        if let Some(name) = name {
            places.push(place_of(rt, name)?)?;
        }
    }
    if let Some(place) = place_of_standard_input(rt)? {
        places.push(place)?;
    }
    Ok(())
}

// The reports of an engine and their places, and then their part files, which are written first.
fn outputs_of<'a, T: Files + AllocGlobal>(
    rt: &T,
    input: EngineInput<'a>,
) -> io::Result<Vec<Output<'a>>> {
    let named = [
        ("summary-out", input.reports.summary_out),
        ("timeline", input.reports.timeline),
        ("rows-out", input.reports.rows_out),
        ("metrics", input.reports.metrics),
    ];
    let mut outputs = Vec::new(rt.alloc());
    for is_part in [false, true] {
        for (option, name) in named {
            if let Some(name) = name {
                outputs.push(output_of(rt, option, name, is_part)?)?;
            }
        }
    }
    Ok(outputs)
}

// The file that an option names, or its part file, and the place.
fn output_of<'a, T: Files + AllocGlobal>(
    rt: &T,
    option: &'a str,
    name: &'a str,
    is_part: bool,
) -> io::Result<Output<'a>> {
    let place = if is_part {
        place_of_part(rt, name)?
    } else {
        place_of(rt, name)?
    };
    Ok(Output {
        option,
        name,
        is_part,
        place,
    })
}
