// Tries the steps of a script: one by one, as a list, and from bytes to bytes.
use crate::input::{read_all, read_script};
use crate::printing::{say, value_of};
use crate::unfinished::Unfinished;
use sq_model::{Answer, Refusal, Step};
use sq_moves::Opening;
use sq_text::{WriteFault, write_answer};
use sq_world::{ScriptManner, World, run, run_world};
use std::alloc::Global;
use std::io::{Read, Write};

/// Makes each step by `World::step`, and once more if there was no memory for it. Writes the
/// answers and the dump.
pub fn try_steps<R: Read, W: Write>(
    alloc: Global,
    reader: &mut R,
    writer: &mut W,
) -> Result<(), Unfinished> {
    writeln!(writer, "starts")?;
    let input = read_all(alloc, reader)?;
    let (opening, steps) = read_script(alloc, &input)?;
    writeln!(writer, "opened")?;
    make_steps(alloc, writer, opening, &steps)
}

fn make_steps<W: Write>(
    alloc: Global,
    writer: &mut W,
    opening: Opening,
    steps: &[Step],
) -> Result<(), Unfinished> {
    let mut world = open(alloc, opening)?;
    for step in steps {
        make_step(writer, &mut world, step)?;
    }
    world.write_dump(writer)?;
    Ok(())
}

// Opens a world, and tries once more if there was no memory for it.
fn open(alloc: Global, opening: Opening) -> Result<World, Unfinished> {
    match World::from_opening(alloc, opening) {
        Ok(world) => Ok(world),
        Err(back) => value_of(World::from_opening(alloc, back)),
    }
}

// Makes a step, and once more if there was no memory for it. Writes each answer.
fn make_step<W: Write>(writer: &mut W, world: &mut World, step: &Step) -> Result<(), WriteFault> {
    let answer = world.step(step);
    write_answer(writer, &answer)?;
    if is_out_of_memory(&answer) {
        write_answer(writer, &world.step(step))?;
    }
    Ok(())
}

// Returns true if `answer` says that there was no memory.
fn is_out_of_memory(answer: &Answer) -> bool {
    matches!(answer, Answer::Refused(Refusal::Memory))
}

/// Makes all steps by `run_world`, and writes the answers and the dump. If the opening is returned
/// it is used once more.
pub fn try_list<R: Read, W: Write>(
    alloc: Global,
    reader: &mut R,
    writer: &mut W,
) -> Result<(), Unfinished> {
    say(writer, "starts");
    let input = read_all(alloc, reader)?;
    let (opening, steps) = read_script(alloc, &input)?;
    say(writer, "opened");
    match make_list(alloc, writer, opening, &steps) {
        Ok((world, answers)) => {
            write_answers(writer, &answers);
            drop(world.write_dump(writer));
            Ok(())
        }
        Err(unfinished) => Err(unfinished),
    }
}

fn make_list<W: Write>(
    alloc: Global,
    writer: &mut W,
    opening: Opening,
    steps: &[Step],
) -> Result<(World, Vec<Answer>), Unfinished> {
    match run_world(alloc, opening, steps) {
        Ok(ran) => Ok(ran),
        Err(back) => {
            say(writer, "back");
            value_of(run_world(alloc, back, steps))
        }
    }
}

fn write_answers<W: Write>(writer: &mut W, answers: &[Answer]) {
    for answer in answers {
        drop(write_answer(writer, answer));
    }
}

/// Runs the whole text by `run`.
pub fn try_input<R: Read, W: Write>(
    alloc: Global,
    reader: &mut R,
    writer: &mut W,
) -> Result<(), Unfinished> {
    say(writer, "starts");
    let input = read_all(alloc, reader)?;
    say(writer, "opened");
    run_text(alloc, writer, &input);
    Ok(())
}

fn run_text<W: Write>(alloc: Global, writer: &mut W, mut text: &[u8]) {
    let manner = ScriptManner {
        echoes: false,
        strict: false,
    };
    let mut kept = None;
    drop(run(alloc, &mut text, writer, manner, &mut kept));
}
