// Whole runs through readers and writers that give or take little at a time, or fail. The other whole runs are stored in
// `tests/cases/run`.
use super::readers::{Drip, SIZES};
use sq_text::{InputFault, InputLine, WriteFault};
use sq_world::{Ending, ScriptManner, run};
use std::alloc::Global;
use std::io;
use std::io::{ErrorKind, Read, Write};
use std::test::Fail;

// A move of the root keys 4 to 7 from partition 0 to partition 1, with answers of each form. Its last line is cut off,
// and a chunk stays under way.
const INPUT: &[u8] = b"old {\"version\":1,\"partitions\":2,\"ranges\":[[0,4294967296,0]]}
new {\"version\":1,\"partitions\":2,\"ranges\":[[0,4,0],[4,8,1],[8,4294967296,0]]}
config 1 64 1
row 4 0 0 1 -
row 5 0 0 10 -
row 9 0 0 10 -
prepare 0
prepare 1
start
claim 0 1 2
txn 0 7 5 add 0 0 1
txn 0 6 9 put 1 7 3 6869 get 1 7 get 1 8 add 0 0 -3
txn 0 5 9 check 0 0 11
begin 0 1 2
txn 0 8 5 add 0 0 1
txn 1 9 5 add 0 0 1
cut 0 1
push 0 1
pop 0 1
load 0 1
cut 0 1
push 0";

// All that is written for it.
const OUTPUT: &[u8] = b"ok
ok
ok
ok
commit 7 11
commit 6 ok 3/6869 none 7
abort 5 0 small
ok
moved 8 1
waits 9 0 1
cut 0 0 1 4 5 more 1
ok
ok
load 0 0 1 4 5 more 1
cut 1 0 1 5 8 last 1
refused 230
end moving
at 0 9 1 0.0=7/- 1.7=3/6869
at 1 4 0 0.0=1/-
way 0 1 1 0 1 5 8 last 1
in 5 1 0.0=11/-
";

// Runs an input without echoes, to its end.
fn run_plainly<R: Read, W: Write>(
    alloc: Global,
    reader: &mut R,
    writer: &mut W,
) -> Result<Ending, WriteFault> {
    let manner = ScriptManner {
        echoes: false,
        strict: false,
    };
    run(alloc, reader, writer, manner, &mut None)
}

// A writer that takes at most `most` bytes a call, and fails after `calls` calls.
#[derive(Drop)]
struct Narrow {
    got: Vec<u8>,
    most: usize,
    calls: usize,
}

impl Narrow {
    // Counts a call.
    fn call(&mut self) -> io::Result<()> {
        if self.calls == 0 {
            return Err(io::Error::from(ErrorKind::BrokenPipe));
        }
        self.calls -= 1;
        Ok(())
    }
}

impl Write for Narrow {
    fn write(&mut self, buf: &[u8]) -> io::Result<usize> {
        self.call()?;
        let taken = buf.len().min(self.most);
        self.got.extend_from_slice(&buf[..taken])?;
        Ok(taken)
    }

    fn flush(&mut self) -> io::Result<()> {
        self.call()
    }
}

#[test]
fn short_reads_and_writes(rt: HostRuntime) -> Result<(), Fail> {
    for most in SIZES {
        let mut reader = Drip {
            rest: INPUT,
            most,
            fails: false,
        };
        let mut writer = Narrow {
            got: Vec::new(rt.alloc()),
            most: 3,
            calls: OUTPUT.len() * 2,
        };
        let ending = run_plainly(rt.alloc(), &mut reader, &mut writer)?;
        assert!(rt; ending == Ending::Done && ending.status() == 0);
        assert!(rt; writer.got.as_slice() == OUTPUT, "by {most}");
    }
    Ok(())
}

// What is written for what a reader gives, and how the run ends.
fn run_of<R: Read>(alloc: Global, reader: &mut R) -> Result<(Vec<u8>, Ending), Fail> {
    let mut output = Vec::new(alloc);
    let ending = run_plainly(alloc, reader, &mut output)?;
    Ok((output, ending))
}

// A reader that is interrupted twice before each read that another one makes.
#[derive(Drop)]
struct Interrupted<'a> {
    reader: Drip<'a>,
    times: u32,
}

impl Read for Interrupted<'_> {
    fn read(&mut self, buf: &mut [u8]) -> io::Result<usize> {
        if self.times < 2 {
            self.times += 1;
            return Err(io::Error::from(ErrorKind::Interrupted));
        }
        self.times = 0;
        self.reader.read(buf)
    }
}

// A read that is interrupted is made again, and what is written is the same.
#[test]
fn interrupted_reads(rt: HostRuntime) -> Result<(), Fail> {
    for most in SIZES {
        let mut reader = Interrupted {
            reader: Drip {
                rest: INPUT,
                most,
                fails: false,
            },
            times: 0,
        };
        let (output, ending) = run_of(rt.alloc(), &mut reader)?;
        assert!(rt;
            ending == Ending::Done && output.as_slice() == OUTPUT,
            "by {most}"
        );
    }
    Ok(())
}

// A header, and a script that takes a node, with all that is written for them.
const HEADER: &[u8] = b"old {\"version\":1,\"partitions\":2,\"ranges\":[[0,4294967296,0]]}
new {\"version\":1,\"partitions\":2,\"ranges\":[[0,4,0],[4,8,1],[8,4294967296,0]]}
config 1 64 1
row 5 0 0 10 -
";

const SCRIPT: &[u8] = b"prepare 0
prepare 1
start
claim 0 1 2
";

const ANSWERS: &[u8] = b"ok
ok
ok
ok
end moving
at 0 5 0 0.0=10/-
";

// The answers to the first lines of the script, and then the fault of a failed read.
fn answers_and_fault(alloc: Global, count: usize) -> Result<Vec<u8>, Fail> {
    let mut wanted = Vec::new(alloc);
    let mut left = count;
    for byte in ANSWERS {
        if left == 0 {
            break;
        }
        wanted.push(*byte)?;
        if *byte == b'\n' {
            left -= 1;
        }
    }
    wanted.extend_from_slice(b"fault 123\n")?;
    Ok(wanted)
}

// What is written where a read fails behind these bytes, and how the run ends.
fn run_failing(alloc: Global, given: &[u8], most: usize) -> Result<(Vec<u8>, Ending), Fail> {
    let mut reader = Drip {
        rest: given,
        most,
        fails: true,
    };
    run_of(alloc, &mut reader)
}

// The ending by a failed read in this line of the script, which follows the four lines of the header.
fn failed_at(line: u32) -> Ending {
    Ending::Fault(InputFault::ReadFailed.at(InputLine::Later(line.saturating_add(5))))
}

// The header with a script.
fn input_of(alloc: Global, script: &[u8]) -> Result<Vec<u8>, Fail> {
    let mut input = Vec::new(alloc);
    input.extend_from_slice(HEADER)?;
    input.extend_from_slice(script)?;
    Ok(input)
}

// How many lines end.
fn count_ends(text: &[u8]) -> usize {
    let mut count: usize = 0;
    for byte in text {
        if *byte == b'\n' {
            count = count.saturating_add(1);
        }
    }
    count
}

// Whether the lines of a script that ended are answered where a read fails behind it, and the fault belongs to the line behind
// them.
fn is_answered(alloc: Global, script: &[u8]) -> Result<bool, Fail> {
    let ended = count_ends(script);
    let input = input_of(alloc, script)?;
    let (output, ending) = run_failing(alloc, &input, 4096)?;
    let line = u32::try_from(ended).unwrap_or(u32::MAX);
    Ok(ending == failed_at(line) && output == answers_and_fault(alloc, ended)?)
}

#[test]
fn readers_that_fail_in_a_script(rt: HostRuntime) -> Result<(), Fail> {
    for length in 0..=SCRIPT.len() {
        assert!(rt;
            is_answered(rt.alloc(), &SCRIPT[..length])?,
            "after {length}"
        );
    }
    Ok(())
}

// A header that isn't complete has the fault alone. The read fails before and after the end of each line, and at every sixteenth
// byte.
#[test]
fn readers_that_fail_in_a_header(rt: HostRuntime) -> Result<(), Fail> {
    for length in 0..HEADER.len() {
        let ends = HEADER[length] == b'\n' || HEADER[length.saturating_sub(1)] == b'\n';
        if ends || length % 16 == 0 {
            let (output, ending) = run_failing(rt.alloc(), &HEADER[..length], 7)?;
            assert!(rt;
                ending.status() == 2 && output.as_slice() == b"fault 123\n".as_slice(),
                "after {length}"
            );
        }
    }
    Ok(())
}

#[test]
fn readers_without_end(rt: HostRuntime) -> Result<(), Fail> {
    let header =
        "old {\"version\":1,\"partitions\":1,\"ranges\":[[0,4294967296,0]]}\nnew {\"version\":1,\"partitions\":1,\"ranges\":[[0,4294967296,0]]}\nconfig 1 64 1\nprepare 0\n";
    let (output, ending) = run_of(rt.alloc(), &mut io::repeat(b'a'))?;
    assert!(rt; ending.status() == 2 && output.as_slice() == b"fault 231\n".as_slice());
    let mut endless = header.as_bytes().chain(io::repeat(b'a'));
    let (output, ending) = run_of(rt.alloc(), &mut endless)?;
    assert!(rt; ending == Ending::Fault(InputFault::TooLong.at(InputLine::Later(5))));
    assert!(rt; output.as_slice() == b"ok\nfault 122\n".as_slice());
    Ok(())
}

// How a run ends through a writer that takes at most `most` bytes a call and fails after `calls` calls, and what the writer got.
fn run_narrowly(
    alloc: Global,
    mut input: &[u8],
    most: usize,
    calls: usize,
) -> (Result<Ending, WriteFault>, Vec<u8>) {
    let mut writer = Narrow {
        got: Vec::new(alloc),
        most,
        calls,
    };
    let ending = run_plainly(alloc, &mut input, &mut writer);
    (ending, writer.got)
}

// Whether it fails, and the writer got the first of what is written otherwise.
fn fails_narrowly(alloc: Global, input: &[u8], most: usize, calls: usize, output: &[u8]) -> bool {
    let (ending, got) = run_narrowly(alloc, input, most, calls);
    ending == Err(WriteFault) && output.starts_with(&got)
}

// A call that fails ends the run, also in the middle of a text. Tries each call of a fault, and every seventh of a script's answers.
#[test]
fn writers_that_fail(rt: HostRuntime) {
    let fault = b"fault 101\n".as_slice();
    for calls in 0..5 {
        assert!(rt;
            fails_narrowly(rt.alloc(), b"old {\n", 3, calls, fault),
            "after {calls}"
        );
    }
    let (ending, got) = run_narrowly(rt.alloc(), b"old {\n", 3, 5);
    assert!(rt; ending.is_ok() && got.as_slice() == fault);
    for calls in 0..100 {
        if calls % 7 == 0 {
            assert!(rt;
                fails_narrowly(rt.alloc(), INPUT, 3, calls, OUTPUT),
                "after {calls}"
            );
        }
    }
    assert!(rt; WriteFault.number() == 124);
}

// The first step of the script, and what is written for the header with it.
const STEP: &[u8] = b"prepare 0\n";

const ANSWER: &[u8] = b"ok
end preparing
at 0 5 0 0.0=10/-
";

// Each call that a run makes of a writer that takes all that it is given fails once.
#[test]
fn writers_that_fail_at_each_call(rt: HostRuntime) -> Result<(), Fail> {
    let alloc = rt.alloc();
    let input = input_of(alloc, STEP)?;
    for calls in 0..100 {
        if !fails_narrowly(alloc, &input, usize::MAX, calls, ANSWER) {
            let (ending, got) = run_narrowly(alloc, &input, usize::MAX, calls);
            assert!(rt; ending == Ok(Ending::Done) && got.as_slice() == ANSWER);
            return Ok(());
        }
    }
    Err("no run went through")?
}
