// The help texts: one line for each subcommand and argument, and a longer text after each list of
// options.
use crate::demo::{MAX_HOT, MAX_JOBS, MAX_PARTITIONS, MAX_ROOTS, MAX_ROWS_PER_ROOT};
use crate::tasks::MAX_PUMPS;

// Puts a sample header between two texts; its only row moves from partition 0 to partition 1.
macro_rules! with_header {
    ($before:literal, $after:literal) => {
        concat!(
            $before,
            r#"old {"version":1,"partitions":2,"ranges":[[0,4294967296,0]]}
new {"version":1,"partitions":2,"ranges":[[0,4,0],[4,8,1],[8,4294967296,0]]}
config 1 64 1
row 5 0 0 10 -
"#,
            $after
        )
    };
}

/// The text after the options of the whole program.
pub const PROGRAM: &str = "\
run, ranges, live and steps read the named file, or else standard input, and
write to standard output; serve reads the named file and then standard input.
The help of a subcommand has an example: squall run --help.

Exit status:
  0  success
  2  a fault, or a command line that is refused
  3  a live run that stopped early, or a refusal under --strict
  4  a live run or an engine that isn't sound

After a fault the last line of standard output is its number, as in 'fault 105',
and standard error says what it means and on which line it is. squall explain
105 says more of it, and squall explain lists all numbers.";

/// Help on the input file.
pub const FILE: &str = "The file to read instead of standard input";

/// Help on the files of the plans and of the rows.
pub const OLD: &str = "Read the plan before the move from this file";

pub const NEW: &str = "Read the plan after the move from this file";

pub const ROWS: &str = "Read the rows from this file";

/// Help on the file that gets the rows at the end.
pub const ROWS_OUT: &str = "Write the rows at the end to this file";

/// Help on `run` and its options, and the text after them.
pub const RUN_ABOUT: &str = "Executes a script step by step";

pub const ECHO: &str = "Write each step before its answer, and explain refusals";

pub const RUN_JSON: &str = "Write each line and its answer as JSON (with --echo)";

pub const STRICT: &str = "Stop at the first refused line";

pub const RUN: &str = with_header!(
    r#"The input is a header and then a script. The header is the plan before the
move, the plan after it, the sizes (root keys per leaf, bytes per chunk, chunks
per link), and the rows. A line of the script is a step: of a client, a
partition, a pull, or the leader of the move.

The plans may be in files of their own, of any number of lines, and the rows in
a third. Then the input begins with the sizes:

squall run --old old.json --new new.json --rows rows.txt script.txt

Standard output gets one line for each step, and at the end the place of every
row. A refused step changes nothing. Its line is 'refused' and a number, which
'squall explain' explains. With --echo each answer follows its step, as in
'start -> ok', and a refusal says what its number means, as in
'cut 0 1 -> refused 201: the move isn't under way'. With --echo --json each line
of the output is a JSON value, as in '{"answer":"ok","line":"start"}'.

With --strict the run stops at the first refused line, names it and the reason
on standard error, writes the dump, and exits with status 3.

With --rows-out FILE the rows at the end are written to a file by rising key, as
lines of a header, or as comma-separated values if its name ends in '.csv': a
next run may begin from them (--rows).

Example:

squall run <<'END'
"#,
    r#"txn 0 1 5 add 0 0 1
prepare 0
prepare 1
start
claim 0 1 2
begin 0 1 2
txn 0 2 5 get 0 0
END

writes

commit 1 11
ok
ok
ok
ok
ok
moved 2 1
end moving
at 0 5 1 0.0=11/-

Exit status:
  0  success
  2  a fault, or a command line that is refused
  3  under --strict, a refused line"#
);

/// Help on `ranges` and its options, and the text after them.
pub const RANGES_ABOUT: &str = "Lists what moves between two plans";

pub const JSON: &str = "Write one JSON value, for a program";

pub const SVG: &str = "Write a picture as SVG";

pub const SIZES: &str = "Add how many families, rows, bytes and chunks move";

pub const RANGES: &str =
    r#"The input is three lines: the plan before the move, the plan after it, and the
sizes. The first size, root keys per leaf, says how ranges are cut into segments
of 32 leaves. Without --sizes nothing after these lines is read. With --old and
--new the plans are in files of their own, of any number of lines, and the input
begins with the sizes:

squall ranges --old old.json --new new.json sizes.txt

Standard output gets a line for each range of root keys that moves, and then one
for each segment: its first key, the key below which it ends, the partition that
gives it, and the one that gets it. If the move has several stages, a segment's
line ends with the number of its stage. With --json all this is one JSON value,
and with --svg a picture.

With --sizes the rows are read too, and lines, or the JSON value, add how many
families (a root key with its rows), rows, bytes and chunks move in each range,
segment and stage, and after these the line 'config W L C' that suits the rows.
The picture adds how much moves in each range.

Example:

squall ranges <<'END'
old {"version":1,"partitions":2,"ranges":[[0,4294967296,0]]}
new {"version":1,"partitions":2,"ranges":[[0,40,1],[40,4294967296,0]]}
config 1 64 1
END

writes

range 0 40 0 1
segment 0 0 32 0 1
segment 1 32 40 0 1

Exit status:
  0  success
  2  a fault, or a command line that is refused"#;

/// Help on `live` and its options, and the text after them.
pub const LIVE_ABOUT: &str = "Runs jobs in threads while rows move, and audits the final state";

pub const TURNS: &str = "Most turns of a thread per stage";

pub const PUMPS: &str = "How many threads pull rows, up to 16";

const _: () = prove!(MAX_PUMPS == 16);

pub const FOLD: &str = "Audit answers and truncate logs between stages";

pub const LIVE_JSON: &str = "Write the outcome as a JSON value";

pub const SUMMARY: &str = "Write what the run did to standard error";

pub const SUMMARY_OUT: &str = "Write an account of the run to this file";

pub const TIMELINE: &str = "Write when each thing was done to this file";

pub const REPLIES: &str = "Write the answer to each job to this file";

pub const LIVE: &str = with_header!(
    r#"The input is a header, as for 'squall run', and then jobs: lines 'txn P ID
ROOT OP..', at most 4096 of them, each with an id of its own. A job is a
transaction that is posted to partition P. Each partition runs in a thread of
its own. The partitions answer the jobs, and meanwhile their rows move to the
places of the new plan: a job pulls the rows that it waits for, and pumps, which
are threads too, pull the rest in the background. The plans and the rows may be
in files of their own, as for 'squall run'.

In a turn a partition takes one new job. If it moves rows in that turn, it takes
more jobs until it has done three times as much for them as for the chunks of
the turn, or finds none. So a partition needs at most as many turns as jobs are
posted to it, or more if they wait for rows. Set --turns if a run stops before
all is done, or to stop it soon.

A move in several stages runs them one after another, each with all of its
turns. A stage that ends with rows left to move stops the run. With --fold the
answers are audited between stages, and the logs truncated: rows stay, and what
was written to them before goes.

Standard output gets one line:

sound F families N committed           all is done, and the audit of the final
                                       state found no defect
stopped A of J jobs, K of S segments   so much was done when the turns ended
unsound NUMBER                         the first defect that the audit found
fault NUMBER                           of the input, before any thread began, or
                                       memory ran out, or the system granted too
                                       few threads

With --json the line is a JSON value, which has the exit status too, as in
'{"committed":3,"families":2,"outcome":"sound","status":0}'.

At a terminal, standard error shows meanwhile how many jobs are answered, how
many families moved, and how many segments are complete.

With --summary a table on standard error says what moved along each link, what
became of the jobs at each partition, and how long the parts of the run took.
With --summary-out FILE a file gets more of it: one JSON value if its name ends
in '.json', else text. With --timeline FILE a file gets the moments at which
jobs were answered and segments were complete: comma-separated values if its
name ends in '.csv', else a chart in SVG.

With --replies FILE a file gets the answer to each job, as 'squall run' writes
it, in the order of the jobs. With --rows-out FILE the rows at the end are
written to a file, as lines of a header, or as comma-separated values if its
name ends in '.csv': a next run, whose old plan is the new one of this run, may
begin from them (--rows).

Example:

squall live <<'END'
"#,
    r#"txn 0 1 5 add 0 0 1
txn 1 2 5 add 0 0 1
txn 0 3 6 put 0 0 1 -
END

writes

sound 2 families 3 committed

Exit status:
  0  sound
  2  a fault, or a command line that is refused
  3  stopped
  4  unsound"#
);

/// Help on `steps`, and the text after its options.
pub const STEPS_ABOUT: &str = "Writes the script of a whole move";

pub const STEPS: &str = with_header!(
    r#"The input is a header, as for 'squall run': the plan before the move, the plan
after it, the sizes, and the rows. Plans and rows may be in files of their own.

Standard output gets the script of the whole move, from 'prepare' to 'finish':
claims, cuts, and the sending and loading of as many chunks as the rows need,
stage after stage. 'squall run' executes it after the same header:

squall steps header.txt > script.txt
cat header.txt script.txt | squall run

Example:

squall steps <<'END'
"#,
    r#"END

Exit status:
  0  success
  2  a fault, or a command line that is refused"#
);

/// Help on `owner`, its options and its arguments, and the text after them.
pub const OWNER_ABOUT: &str = "Says who owns root keys before a move and after it";

pub const WIDTH: &str = "Root keys per leaf, the first number of the config line";

pub const OWNER_JSON: &str = "Write a JSON value for each root key";

pub const KEYS: &str = "The root keys, numbers below 4294967296";

pub const OWNER: &str = "\
Standard output gets a line for each root key, in the order of the words: its
owner by the plan before the move, and its owner by the plan after it. If the
key moves, the line has its range and its stage too, and with --width also its
segment and leaf. With --json each line is a JSON value.

Example:

squall owner --old old.json --new new.json 5 77

Exit status:
  0  success
  2  a fault, or a command line that is refused";

/// Help on `demo`, its options and its folder, and the text after them.
pub const DEMO_ABOUT: &str = "Writes sample plans, rows and jobs";

pub const PARTITIONS: &str = "How many partitions there are, 2 to 16";

pub const ROOTS: &str = "How many root keys, up to 1000000";

pub const ROWS_PER_ROOT: &str = "How many rows each has, up to 1000";

pub const JOBS: &str = "How many jobs there are, up to 4096";

pub const HOT: &str = "Jobs of 100 for hot keys, about";

const _: () = prove!(MAX_PARTITIONS == 16 && MAX_ROOTS == 1_000_000);

const _: () = prove!(MAX_ROWS_PER_ROOT == 1_000 && MAX_JOBS == 4_096 && MAX_HOT == 100);

pub const STAGES: &str = "Make it a move in several stages";

pub const SEED: &str = "The seed that the jobs are drawn by";

pub const FOLDER: &str = "The folder that gets the files";

pub const DEMO: &str = "\
The folder gets four files: old.json and new.json, the plans before and after a
move; rows.txt, the rows; and jobs.txt, the sizes and then the jobs, as 'squall
live' takes them. No existing file is replaced. Partition 0 is the hot one: an
eighth of its root keys get about as many jobs of 100 as --hot says, and by the
new plan they go to the other partitions. The same options write the same files,
of 1000000 lines at most in all.

Standard output gets the commands that use them.

Example:

squall demo --jobs 1000 shop

Exit status:
  0  success
  2  a file that can't be written, or a command line that is refused";

/// Help on `serve` and its options, and the text after them.
pub const SERVE_ABOUT: &str = "Answers jobs as their lines come, while rows move";

pub const SERVE_STRICT: &str = "Stop at the first line with a fault or a refusal";

pub const SERVE_TIMELINE: &str = "Write what was done in each 10 ms to this file";

pub const METRICS: &str = "Write Prometheus figures to this file each second";

pub const PLAN: &str = "Read the first plan from this file";

pub const SERVE: &str = "\
The input is the file, if one is named, and then standard input. It begins with
a line 'plan JSON', a line 'config W L C' and the rows. The plan and the rows
may be in files of their own. After that each line asks for something:

txn P ID ROOT OP..   a job; its answer is written as soon as it is done
move JSON            rows move to the places of this plan, after the moves that
                     were asked for before
drop                 the move that waits last is dropped
pause, resume        threads that pull rows rest, and go on
pumps N              only the first N of these threads pull rows
chunk BYTES          chunks of moves asked for later have at most BYTES bytes
fold                 how many answers were found sound
status               how far a move is, and how many jobs are open
status json          the same and more figures, as JSON
plan                 the plan that is in force
owner ROOT           the partition that owns this root key by that plan
rows                 each row, as a line 'row ..'; refused while rows move
rows FILE            the same, written to this file; as comma-separated values
                     if its name ends in '.csv'

At the end of the input all jobs are answered, and moves go to their ends:
'sound F families N committed' is the last line. With --rows-out FILE the rows
are then written to a file, as by 'rows FILE'.

Example:

squall serve examples/engine.txt < /dev/null

Exit status:
  0  sound
  2  a fault that ends it, or a command line that is refused
  3  under --strict: a line had a fault or was refused
  4  unsound";

/// Help on `explain` and its number, and the text after them.
pub const EXPLAIN_ABOUT: &str = "Says what a number means, what gives it, and what to do about it";

pub const NUMBER: &str = "The number (default: all of them)";

pub const EXPLAIN: &str = "\
Standard output gets three lines for the number: what it means, what gives it,
and what to do about it. Without a number it gets these lines for all numbers.

Exit status:
  0  success
  2  there is no such number, or a command line that is refused";
