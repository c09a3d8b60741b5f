// What is wrong with a faulty line.
use crate::earlier::{Earlier, FilesAgain, earlier_in_files, earlier_line};
use crate::plans::read_plan;
use crate::source::{FaultPlace, Source};
use sq_input::{
    LineFlaw, MoveLines, NO_ROW, Once, PlanFlaw, Recalled, Recalling, RecordFlaw, ToldColumn,
    ToldFlaw, ToldSegments, ToldWord, Wanted, has_unread_stages, job_flaw, job_word, opening_word,
    plan_flaw, plan_line_flaw, row_flaw, segment_flaw, sizes_flaw,
};
use sq_live::{JobFault, JobLineFault};
use sq_moves::{OpeningFault, ReconFault};
use sq_plan::{Plan, PlanFault};
use sq_schema::{MAX_TABLES, RowFault, Schema, TxnFault};
use sq_serving::{FaultyHeader, HeaderLine, LineRefusal, RefusedMove, ServeFault, read_serve_line};
use sq_text::{InputFault, InputLine, LocatedFault, Meaning};
use std::alloc::Global;
use std::fmt;
use std::fmt::{Display, Formatter, Write};
use std::io::Read;
use std::rt::Files;

// The numbers, in a transaction's line, of the words for its partition and its id; the first word
// is 1.
const PARTITION: usize = 2;

const ID: usize = 3;

// The numbers of two faults: no such partition exists, and a job has the id of an earlier one.
const NO_PARTITION: u16 = 219;

const REPEATED_ID: u16 = 127;

// The first word of the first line of an engine's header.
const PLAN: &[u8] = b"plan";

// How a line begins that asks for a move.
const MOVE: &[u8] = b"move ";

// What is wrong with a line.
#[derive(Clone, Copy)]
enum Misfit<'a> {
    /// The input ends before it.
    Missing,
    /// It has no line end.
    Endless,
    /// It isn't of its form.
    Flaw(ToldFlaw<'a>),
    /// One of its words isn't allowed there.
    Word {
        word: ToldWord<'a>,
        hint: Hint<'a>,
    },
    /// A column of its record isn't of its form, or isn't allowed there.
    Column {
        column: ToldColumn<'a>,
        hint: Hint<'a>,
    },
    /// Its record isn't read to its end.
    Record(RecordFlaw),
    /// It is in a file of rows, and isn't a row.
    NoRow,
    /// It has the row of an earlier line.
    Repeats {
        is_record: bool,
        earlier: Earlier<'a>,
    },
    /// Its plan is faulty.
    Plan(PlanFlaw),
    /// Its sizes cut the move into too many segments.
    Segments(ToldSegments),
    /// Its plan has another number of partitions than the plan in force.
    Partitions {
        asked: u8,
        in_force: u8,
    },
}

/// What is added to a word that isn't allowed.
#[derive(Clone, Copy)]
enum Hint<'a> {
    Nothing,
    /// Which tables there are.
    Tables,
    /// Which earlier line has the word.
    Earlier(Earlier<'a>),
}

impl<'a> Hint<'a> {
    // What is added to the word that `fault` is about.
    fn of(fault: TxnFault) -> Hint<'a> {
        match fault {
            TxnFault::BadTable => Hint::Tables,
            _ => Hint::Nothing,
        }
    }
}

impl Display for Hint<'_> {
    fn fmt<W: Write>(&self, f: &mut Formatter<W>) -> fmt::Result {
        match self {
            Hint::Nothing => Ok(()),
            Hint::Tables => write!(f, ", and tables are 0 to {}", MAX_TABLES.saturating_sub(1)),
            Hint::Earlier(earlier) => write!(f, ", as in {earlier}"),
        }
    }
}

impl<'a> Misfit<'a> {
    // Word number `at` of `line`, which isn't allowed there.
    fn word(line: &'a [u8], at: usize, hint: Hint<'a>) -> Misfit<'a> {
        Misfit::Word {
            word: ToldWord { line, at },
            hint,
        }
    }

    // The same, put in terms of the columns of a record.
    fn in_columns(self) -> Misfit<'a> {
        match self {
            Misfit::Flaw(flaw) => Misfit::Column {
                column: ToldColumn::Flaw(flaw),
                hint: Hint::Nothing,
            },
            Misfit::Word { word, hint } => Misfit::Column {
                column: ToldColumn::Word(word),
                hint,
            },
            Misfit::Repeats { earlier, .. } => Misfit::Repeats {
                is_record: true,
                earlier,
            },
            misfit => misfit,
        }
    }
}

impl Display for Misfit<'_> {
    fn fmt<W: Write>(&self, f: &mut Formatter<W>) -> fmt::Result {
        match self {
            Misfit::Missing => f.write_str("the input ends before it"),
            Misfit::Endless => f.write_str("it has no line end (the byte 0A)"),
            Misfit::Flaw(flaw) => write!(f, "{flaw}"),
            Misfit::Word { word, hint } => write!(f, "{word}{hint}"),
            Misfit::Column { column, hint } => write!(f, "{column}{hint}"),
            Misfit::Record(flaw) => write!(f, "{flaw}"),
            Misfit::NoRow => f.write_str("it isn't a row"),
            Misfit::Repeats {
                is_record: false,
                earlier,
            } => write!(f, "words 2 to 4 are those of {earlier}"),
            Misfit::Repeats { earlier, .. } => {
                write!(f, "columns 1 to 3 are those of {earlier}")
            }
            Misfit::Plan(flaw) => write!(f, "{flaw}"),
            Misfit::Segments(flaw) => write!(f, "{flaw}"),
            Misfit::Partitions { asked, in_force } => write!(
                f,
                "its plan has {asked} partitions, and the plan in force {in_force}"
            ),
        }
    }
}

/// Writes to standard error what is wrong with the line that a fault of an input belongs to, if
/// that can be found.
pub fn tell_misfit<T: Eprint + Files + AllocGlobal, R: Read>(
    rt: &T,
    source: &Source<'_>,
    reader: &Recalling<R>,
    located: &LocatedFault,
) {
    let Some(line) = located.line else {
        return;
    };
    let place = source.place(line);
    if let (FaultPlace::File(name), InputFault::Plan(fault)) = (place, located.fault) {
        tell_plan_of_file(rt, name, fault);
        return;
    }
    if let Some(misfit) = misfit_at(rt, source, reader, located.fault, line) {
        let _ = eprintln!(rt; "squall: {place}: {misfit}");
    }
}

/// Writes to standard error why a line of a header isn't of `form`, or what its fault means if that
/// can't be found, and then the form.
pub fn tell_form<T: Eprint + Files + AllocGlobal, R: Read>(
    rt: &T,
    source: &Source<'_>,
    reader: &Recalling<R>,
    located: &LocatedFault,
    line: InputLine,
    form: &str,
) {
    let place = source.place(line);
    match misfit_at(rt, source, reader, located.fault, line) {
        Some(misfit) => {
            let number = located.fault.number();
            let _ = eprintln!(rt; "squall: {place}: fault {number}: {misfit}");
        }
        None => {
            let _ = eprintln!(rt; "squall: {place}: {}", Meaning(located));
        }
    }
    let _ = eprintln!(rt; "squall: {place} is to be {form}");
}

// What is wrong with `line`, which has a fault.
fn misfit_at<'a, T: Files + AllocGlobal, R: Read>(
    rt: &T,
    source: &Source<'a>,
    reader: &'a Recalling<R>,
    fault: InputFault,
    line: InputLine,
) -> Option<Misfit<'a>> {
    if let Some(flaw) = source.record_flaw(line) {
        return Some(Misfit::Record(flaw));
    }
    let misfit = match misfit_of_row(rt, source, reader, fault, line) {
        Some(misfit) => misfit,
        None => misfit_in_line(rt.alloc(), reader, fault, line)?,
    };
    if source.is_record(line) {
        Some(misfit.in_columns())
    } else {
        Some(misfit)
    }
}

// What is wrong with `line` by itself.
fn misfit_in_line<'a, R: Read>(
    alloc: Global,
    reader: &'a Recalling<R>,
    fault: InputFault,
    line: InputLine,
) -> Option<Misfit<'a>> {
    let recalled = reader.line(line.number() as usize);
    match misfit_of_segments(alloc, reader, fault, recalled) {
        Some(misfit) => Some(misfit),
        None => misfit_of(alloc, line, fault, recalled),
    }
}

// What is wrong with a row that is given twice, if the earlier line is found.
fn misfit_of_row<'a, T: Files + AllocGlobal, R: Read>(
    rt: &T,
    source: &Source<'a>,
    reader: &'a Recalling<R>,
    fault: InputFault,
    line: InputLine,
) -> Option<Misfit<'a>> {
    if !is_repeated_row(fault) {
        return None;
    }
    let Recalled::Line(bytes) = reader.line(line.number() as usize) else {
        return None;
    };
    let place = earlier_line(rt, source, reader, Once::Row, line.number(), bytes)?;
    Some(Misfit::Repeats {
        is_record: false,
        earlier: Earlier {
            place,
            after: source.place(line),
        },
    })
}

// Returns whether the fault is that a row is given twice.
fn is_repeated_row(fault: InputFault) -> bool {
    matches!(
        fault,
        InputFault::Opening(OpeningFault::Place(_, RowFault::RowRepeated))
    )
}

/// Writes to standard error how many segments a move would have, if its fault is that they are too
/// many, and the width of a leaf that would do. Doesn't name a line.
pub fn tell_segments<T: Eprint + AllocGlobal, R: Read>(
    rt: &T,
    reader: &Recalling<R>,
    located: &LocatedFault,
) {
    let Some(line) = located.line else {
        return;
    };
    let recalled = reader.line(line.number() as usize);
    if let Some(misfit) = misfit_of_segments(rt.alloc(), reader, located.fault, recalled) {
        let _ = eprintln!(rt; "squall: {misfit}");
    }
}

/// Writes to standard error which plans of an input are of version 1 and have stages, which version
/// 1 doesn't read.
pub fn tell_unread_stages<T: Eprint + AllocGlobal, R: Read>(
    rt: &T,
    source: &Source<'_>,
    reader: &Recalling<R>,
) {
    let lines = [
        (InputLine::Old, reader.old_line()),
        (InputLine::New, reader.new_line()),
    ];
    for (line, bytes) in lines {
        if let Some(text) = bytes.and_then(|bytes| bytes.get(4..)) {
            if has_unread_stages(rt.alloc(), text) == Ok(true) {
                let place = source.place(line);
                let _ = eprintln!(rt;
                    "squall: {place}: 'stages' isn't read in version 1: write \"version\":2"
                );
            }
        }
    }
}

/// Writes to standard error what is wrong with the line of a faulty job, if that can be found.
pub fn tell_misfit_of_job<T: Eprint + Files + AllocGlobal, R: Read>(
    rt: &T,
    source: &Source<'_>,
    reader: &Recalling<R>,
    job: JobLineFault,
) {
    let place = source.place(InputLine::Later(job.line));
    if let Some(misfit) = misfit_of_job_at(rt, source, reader, job) {
        let _ = eprintln!(rt; "squall: {place}: {misfit}");
    }
}

// What is wrong with a faulty job.
fn misfit_of_job_at<'a, T: Files + AllocGlobal, R: Read>(
    rt: &T,
    source: &Source<'a>,
    reader: &'a Recalling<R>,
    job: JobLineFault,
) -> Option<Misfit<'a>> {
    if let Some(misfit) = misfit_of_id(rt, source, reader, job) {
        return Some(misfit);
    }
    misfit_of_job(job.fault, reader.line(job.line as usize))
}

// What is wrong with a job whose id an earlier one has, if the earlier line is found.
fn misfit_of_id<'a, T: Files + AllocGlobal, R: Read>(
    rt: &T,
    source: &Source<'a>,
    reader: &'a Recalling<R>,
    job: JobLineFault,
) -> Option<Misfit<'a>> {
    if job.fault != JobFault::RepeatedId {
        return None;
    }
    let Recalled::Line(line) = reader.line(job.line as usize) else {
        return None;
    };
    let place = earlier_line(rt, source, reader, Once::Id, u64::from(job.line), line)?;
    let earlier = Earlier {
        place,
        after: source.place(InputLine::Later(job.line)),
    };
    Some(Misfit::word(line, ID, Hint::Earlier(earlier)))
}

/// Writes to standard error what is wrong with a refused line of an engine's input, if that can be
/// found.
pub fn tell_misfit_of_refused<T: Eprint + AllocGlobal>(
    rt: &T,
    place: FaultPlace<'_>,
    refusal: &LineRefusal<'_>,
) {
    if let Some(misfit) = misfit_of_refused(rt.alloc(), refusal.number, refusal.text) {
        let _ = eprintln!(rt; "squall: {place}: {misfit}");
    }
}

/// Writes to standard error why an engine refuses a move, if that can be found.
pub fn tell_misfit_of_move<T: Eprint + AllocGlobal>(
    rt: &T,
    place: FaultPlace<'_>,
    refused: &RefusedMove<'_>,
) {
    if let Some(misfit) = misfit_of_move(rt.alloc(), refused) {
        let _ = eprintln!(rt; "squall: {place}: {misfit}");
    }
}

/// Where the faulty line of an engine's header is.
#[derive(Clone, Copy)]
pub struct HeaderPlace<'a> {
    pub place: FaultPlace<'a>,
    /// Whether it is of a table of values.
    pub is_record: bool,
    /// Why its record isn't read to its end, if it isn't.
    pub flaw: Option<RecordFlaw>,
    /// The files in which a line before it may be.
    pub files: FilesAgain<'a>,
}

/// Writes to standard error what is wrong with a faulty line of an engine's header, if that can be
/// found.
pub fn tell_misfit_of_header<T: Eprint + Files + AllocGlobal>(
    rt: &T,
    header: &FaultyHeader,
    at: HeaderPlace<'_>,
) {
    let place = at.place;
    if let (FaultPlace::File(name), InputFault::Plan(fault)) = (place, header.fault.located.fault) {
        tell_plan_of_file(rt, name, fault);
        return;
    }
    if let Some(misfit) = misfit_in_header(rt, header, at) {
        let _ = eprintln!(rt; "squall: {place}: {misfit}");
    }
}

/// Writes to standard error why a line of an engine's header isn't of `form`, or only its fault if
/// that can't be found, and then the form.
pub fn tell_form_of_header<T: Eprint + Files + AllocGlobal>(
    rt: &T,
    header: &FaultyHeader,
    at: HeaderPlace<'_>,
    form: &str,
) {
    let place = at.place;
    let number = header.fault.located.fault.number();
    match misfit_in_header(rt, header, at) {
        Some(misfit) => {
            let _ = eprintln!(rt; "squall: {place}: fault {number}: {misfit}");
            let _ = eprintln!(rt; "squall: {place} is to be {form}");
        }
        None => {
            let _ = eprintln!(rt; "squall: {place}: fault {number}: it is to be {form}");
        }
    }
}

// What is wrong with a faulty line of an engine's header, which is at `at`.
fn misfit_in_header<'a, T: Files + AllocGlobal>(
    rt: &T,
    header: &'a FaultyHeader,
    at: HeaderPlace<'a>,
) -> Option<Misfit<'a>> {
    if let Some(flaw) = at.flaw {
        return Some(Misfit::Record(flaw));
    }
    let misfit = match misfit_of_row_in_header(rt, header, at) {
        Some(misfit) => misfit,
        None => misfit_of_header(rt.alloc(), header)?,
    };
    if at.is_record {
        Some(misfit.in_columns())
    } else {
        Some(misfit)
    }
}

// What is wrong with a row of an engine's header that is given twice, if the earlier line is found.
fn misfit_of_row_in_header<'a, T: Files + AllocGlobal>(
    rt: &T,
    header: &'a FaultyHeader,
    at: HeaderPlace<'a>,
) -> Option<Misfit<'a>> {
    if !is_repeated_row(header.fault.located.fault) {
        return None;
    }
    let HeaderLine::Line(line) = &header.line else {
        return None;
    };
    let place = earlier_in_files(rt, at.files, Once::Row, line)?;
    Some(Misfit::Repeats {
        is_record: false,
        earlier: Earlier {
            place,
            after: at.place,
        },
    })
}

// Writes to standard error what is wrong with the file of a plan, which is read again in its own
// layout.
fn tell_plan_of_file<T: Eprint + Files + AllocGlobal>(rt: &T, name: &str, fault: PlanFault) {
    let Ok(text) = read_plan(rt, name) else {
        return;
    };
    if let Some(flaw) = plan_flaw(rt.alloc(), fault, text.as_slice()) {
        let _ = eprintln!(rt; "squall: {name}: {flaw}");
    }
}

// What is wrong with a line of sizes that cuts the move into too many segments.
fn misfit_of_segments<'a, R: Read>(
    alloc: Global,
    reader: &Recalling<R>,
    fault: InputFault,
    recalled: Recalled<'a>,
) -> Option<Misfit<'a>> {
    match (fault, recalled) {
        (InputFault::Opening(fault), Recalled::Line(sizes)) => {
            let lines = MoveLines {
                old: reader.old_line()?,
                new: reader.new_line()?,
                sizes,
            };
            Some(Misfit::Segments(segment_flaw(alloc, fault, lines)?))
        }
        _ => None,
    }
}

// What is wrong with a faulty line of an input.
fn misfit_of<'a>(
    alloc: Global,
    line: InputLine,
    fault: InputFault,
    recalled: Recalled<'a>,
) -> Option<Misfit<'a>> {
    match (fault, recalled) {
        (InputFault::BadHeader, Recalled::Missing) => Some(Misfit::Missing),
        (InputFault::BadHeader, Recalled::Rest(_)) => Some(Misfit::Endless),
        (InputFault::BadHeader, Recalled::Line(bytes)) if bytes == NO_ROW => Some(Misfit::NoRow),
        (InputFault::BadHeader, Recalled::Line(line_bytes)) => {
            let flaw = flaw_of(line, line_bytes)?;
            Some(Misfit::Flaw(ToldFlaw {
                line: line_bytes,
                flaw,
            }))
        }
        (InputFault::Opening(fault), Recalled::Line(line)) => {
            let at = opening_word(fault)?;
            let hint = match fault {
                OpeningFault::Row(_, fault) => Hint::of(fault),
                _ => Hint::Nothing,
            };
            Some(Misfit::word(line, at, hint))
        }
        (InputFault::Plan(fault), Recalled::Line(line)) => {
            let text = line.get(4..)?;
            Some(Misfit::Plan(plan_flaw(alloc, fault, text)?))
        }
        _ => None,
    }
}

// The first departure of a header line from its form.
fn flaw_of(line: InputLine, bytes: &[u8]) -> Option<LineFlaw> {
    match line {
        InputLine::Old => plan_line_flaw(Wanted::Old, bytes),
        InputLine::New => plan_line_flaw(Wanted::New, bytes),
        InputLine::Config => sizes_flaw(bytes),
        InputLine::Row(_) => row_flaw(bytes),
        InputLine::Later(_) => None,
    }
}

// What is wrong with the line of a faulty job.
fn misfit_of_job(fault: JobFault, recalled: Recalled<'_>) -> Option<Misfit<'_>> {
    let line = match recalled {
        Recalled::Line(line) => line,
        Recalled::Rest(_) if fault == JobFault::NotAJob => return Some(Misfit::Endless),
        _ => return None,
    };
    match fault {
        JobFault::NotAJob => {
            let flaw = job_flaw(line)?;
            Some(Misfit::Flaw(ToldFlaw { line, flaw }))
        }
        JobFault::NoSuchPartition => Some(Misfit::word(line, PARTITION, Hint::Nothing)),
        JobFault::RepeatedId => Some(Misfit::word(line, ID, Hint::Nothing)),
        JobFault::Txn(fault) => Some(Misfit::word(line, job_word(fault, line)?, Hint::of(fault))),
        _ => None,
    }
}

// What is wrong with a line of an engine's input that is refused with `number`. Nothing is found in
// an empty line.
fn misfit_of_refused(alloc: Global, number: u16, line: &[u8]) -> Option<Misfit<'_>> {
    if line.is_empty() {
        return None;
    }
    match number {
        NO_PARTITION => Some(Misfit::word(line, PARTITION, Hint::Nothing)),
        REPEATED_ID => Some(Misfit::word(line, ID, Hint::Nothing)),
        _ => misfit_of_asked(alloc, line),
    }
}

// What is wrong with a line that an engine can't read as a request.
fn misfit_of_asked(alloc: Global, line: &[u8]) -> Option<Misfit<'_>> {
    let schema = Schema::new(MAX_TABLES)?;
    match read_serve_line(alloc, &schema, line) {
        Err(ServeFault::NotAServeLine) if line.starts_with(b"txn") => {
            let flaw = job_flaw(line)?;
            Some(Misfit::Flaw(ToldFlaw { line, flaw }))
        }
        Err(ServeFault::Txn(fault)) => {
            Some(Misfit::word(line, job_word(fault, line)?, Hint::of(fault)))
        }
        Err(ServeFault::Plan(fault)) => {
            let text = line.get(MOVE.len()..)?;
            Some(Misfit::Plan(plan_flaw(alloc, fault, text)?))
        }
        _ => None,
    }
}

// Why an engine refuses a move.
fn misfit_of_move<'a>(alloc: Global, refused: &RefusedMove<'_>) -> Option<Misfit<'a>> {
    let number = refused.number;
    if number == ReconFault::PartitionsDiffer.number() {
        let asked = Plan::read(alloc, refused.new.as_bytes()).ok()?.parts();
        let in_force = Plan::read(alloc, refused.old.as_bytes()).ok()?.parts();
        Some(Misfit::Partitions { asked, in_force })
    } else if number == ReconFault::TooManySegments.number() {
        Some(Misfit::Segments(segments_of_move(alloc, refused)?))
    } else {
        None
    }
}

// Why a move that an engine refuses would have too many segments.
fn segments_of_move(alloc: Global, refused: &RefusedMove<'_>) -> Option<ToldSegments> {
    let old = format!(in alloc; "old {}", refused.old).ok()?;
    let new = format!(in alloc; "new {}", refused.new).ok()?;
    let sizes = format!(in alloc; "config {}", refused.width).ok()?;
    let lines = MoveLines {
        old: old.as_bytes(),
        new: new.as_bytes(),
        sizes: sizes.as_bytes(),
    };
    segment_flaw(
        alloc,
        OpeningFault::Recon(ReconFault::TooManySegments),
        lines,
    )
}

// What is wrong with a faulty line of an engine's header.
fn misfit_of_header(alloc: Global, header: &FaultyHeader) -> Option<Misfit<'_>> {
    let located = header.fault.located;
    let recalled = match &header.line {
        HeaderLine::Line(line) => Recalled::Line(line),
        HeaderLine::Missing => Recalled::Missing,
        HeaderLine::Lost => Recalled::Lost,
    };
    match (located.line?.number(), located.fault, recalled) {
        (1, InputFault::BadHeader, Recalled::Line(line)) => Some(misfit_of_first(line)),
        (1, fault, recalled) => misfit_of(alloc, InputLine::Old, fault, recalled),
        (2, fault, recalled) => misfit_of(alloc, InputLine::Config, fault, recalled),
        (_, fault, recalled) => misfit_of(alloc, InputLine::Row(0), fault, recalled),
    }
}

// What is wrong with a first line of an engine's header that isn't `plan PLAN`.
fn misfit_of_first(line: &[u8]) -> Misfit<'_> {
    match plan_line_flaw(Wanted::Old, line) {
        Some(LineFlaw::Wrong { .. } | LineFlaw::Missing { .. }) if line == PLAN => {
            Misfit::Flaw(ToldFlaw {
                line,
                flaw: LineFlaw::Missing {
                    at: 2,
                    wanted: Wanted::Plan,
                },
            })
        }
        Some(flaw @ (LineFlaw::Mark | LineFlaw::Empty { .. })) => Misfit::Flaw(ToldFlaw {
            line,
            flaw,
        }),
        _ => Misfit::word(line, 1, Hint::Nothing),
    }
}
