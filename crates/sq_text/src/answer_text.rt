// Writes the answer lines of steps.
ghost use Rattle.std.specs.Prelude.{◌≡◌, ◌≤◌, ◌+◌, ◌∷◌, ◌++◌, [], false, length, decimal, OnOk};
ghost use Rattle.std.specs.List.{flat_map, join_with_byte};
ghost use Rattle.std.specs.Io.KnownBytes.{Appends};
ghost use Rattle.sq_schema.specs.declared.txn.Reply.TheVariants.{Aborted};
ghost use Rattle.sq_model.specs.declared.answer.Answer.TheVariants.{Moved, Waits};
ghost use Rattle.sq_text.specs.Texts.{line, op_answer_text, has_note, cause_text, mark_text, commit_words, reply_words, note_words, status_text, reading_text, node_words, answer_line, refused_line, fault_line};

use crate::output_fault::{WriteFault, write_bytes};
use crate::row_text::{has_note, put_op_answer, write_op_answer};
use crate::text::{Text, TextOf};
use sq_model::Answer;
use sq_moves::{Leaf, Reading, SegId, Status};
use sq_plan::PartId;
use sq_schema::{Cause, OpAnswer, Reply};
use sq_store::Note;
use std::io::Write;

fn cause_text(cause: Cause) -> &'static [u8]
    ensures text { result.now ≡ cause_text cause }
    ensures size { length result.now ≤ 8 }
{
    match cause {
        Cause::Absent => b"absent",
        Cause::Small => b"small",
        Cause::Range => b"range",
        Cause::NoRoot => b"noroot",
        Cause::Children => b"children",
    }
}

// Writes each of `answers`, with a space before each.
fn write_op_answers<W: Write>(writer: &mut W, answers: &[OpAnswer]) -> Result<(), WriteFault>
    ensures { OnOk result (Appends (W.contents writer.old) (W.contents writer.new)
        (flat_map (λ answer. 32 ∷ op_answer_text answer) answers.now)) }
{
    for answer in answers {
        write_op_answer(writer, answer)?;
    }
    Ok(())
}

// Writes the line of a commit whose only operation has an answer without a note.
fn write_short_commit<W: Write>(
    writer: &mut W,
    id: u64,
    answer: &OpAnswer,
) -> Result<(), WriteFault>
    requires { has_note answer.now ≡ false }
    ensures { OnOk result (Appends (W.contents writer.old) (W.contents writer.new)
        (line (commit_words id (answer.now ∷ [])))) }
{
    let mut text = TextOf::<64>::new();
    text.put_byte(b'\n');
    put_op_answer(&mut text, answer);
    text.put_byte(b' ');
    text.put_number(id);
    text.put(b"commit ");
    write_bytes(writer, text.as_bytes())
}

// Writes the line of a committed transaction: `id` and its operations' `answers`.
fn write_commit<W: Write>(writer: &mut W, id: u64, answers: &[OpAnswer]) -> Result<(), WriteFault>
    ensures { OnOk result (Appends (W.contents writer.old) (W.contents writer.new)
        (line (commit_words id answers.now))) }
{
    match answers {
        [answer] if !has_note(answer) => write_short_commit(writer, id, answer),
        _ => {
            let mut text = Text::new();
            text.put_number(id);
            text.put(b"commit ");
            write_bytes(writer, text.as_bytes())?;
            write_op_answers(writer, answers)?;
            write_bytes(writer, b"\n")
        }
    }
}

// Writes the line of an aborted transaction: `id`, the position `at` of the operation that aborted
// it, and `cause`.
fn write_abort<W: Write>(writer: &mut W, id: u64, at: usize, cause: Cause) -> Result<(), WriteFault>
    ensures { OnOk result (Appends (W.contents writer.old) (W.contents writer.new)
        (line (reply_words id (Aborted at cause)))) }
{
    let mut text = TextOf::<64>::new();
    text.put_byte(b'\n');
    text.put(cause_text(cause));
    text.put_byte(b' ');
    text.put_number(at as u64);
    text.put_byte(b' ');
    text.put_number(id);
    text.put(b"abort ");
    write_bytes(writer, text.as_bytes())
}

// Writes the line of a transaction's `reply`.
fn write_reply<W: Write>(writer: &mut W, id: u64, reply: &Reply) -> Result<(), WriteFault>
    ensures { OnOk result (Appends (W.contents writer.old) (W.contents writer.new)
        (line (reply_words id reply.now))) }
{
    match reply {
        Reply::Committed(answers) => write_commit(writer, id, answers.as_slice()),
        Reply::Aborted { at, cause } => write_abort(writer, id, *at, *cause),
    }
}

// Returns ` last ` for a chunk that is its node's last, otherwise ` more `.
fn mark_text(last: bool) -> &'static [u8]
    ensures text { result.now ≡ 32 ∷ mark_text last ++ 32 ∷ [] }
    ensures size { length result.now ≡ 6 }
{
    if last { b" last " } else { b" more " }
}

// Puts the rest of a note's line, after its link, into the empty `text`; `families` counts those of
// its chunk.
pub(crate) fn put_note(text: &mut Text, note: &Note, families: u64)
    requires { text.old ≡ [] }
    ensures text { text.new ≡ line (note_words note.now families) }
    ensures size { length text.new ≤ 131 }
{
    text.put_byte(b'\n');
    text.put_number(families);
    text.put(mark_text(note.last));
    text.put_number(note.hi);
    text.put_byte(b' ');
    text.put_number(note.lo);
    text.put_byte(b' ');
    text.put_number(note.node.number());
    text.put_byte(b' ');
    text.put_number(note.seg.number());
    text.put_byte(b' ');
    text.put_number(note.number);
}

// Writes the line of `note` after `front`, its first word with a space.
fn write_note<W: Write>(
    writer: &mut W,
    front: &[u8],
    note: &Note,
    families: u64,
) -> Result<(), WriteFault>
    requires { length front.now ≤ 5 }
    ensures { OnOk result (Appends (W.contents writer.old) (W.contents writer.new)
        (front.now ++ line (note_words note.now families))) }
{
    let mut text = Text::new();
    put_note(&mut text, note, families);
    text.put(front);
    write_bytes(writer, text.as_bytes())
}

// Puts `front`, a word with its space, and the number `pull` before `text`.
fn put_pull(text: &mut TextOf<64>, front: &[u8], pull: u32)
    requires { length front.now + length text.old ≤ 44 }
    ensures text { text.new ≡ front.now ++ (decimal pull ++ text.old) }
    ensures size { length text.new ≤ length front.now + length text.old + 20 }
{
    text.put_number(u64::from(pull));
    text.put(front);
}

// Puts a node's `status` before `text`.
fn put_status(text: &mut TextOf<64>, status: Status)
    requires { length text.old ≤ 35 }
    ensures text { text.new ≡ status_text status ++ text.old }
    ensures size { length text.new ≤ length text.old + 29 }
{
    match status {
        Status::Free => text.put(b"free"),
        Status::Split => text.put(b"split"),
        Status::Claimed(pull) => put_pull(text, b"claimed ", pull),
        Status::Partial(pull) => put_pull(text, b"partial ", pull),
        Status::Complete(pull) => put_pull(text, b"complete ", pull),
    }
}

fn reading_text(reading: Reading) -> &'static [u8]
    ensures text { result.now ≡ reading_text reading }
    ensures size { length result.now ≤ 11 }
{
    match reading {
        Reading::NotStarted => b"not-started",
        Reading::Partial => b"partial",
        Reading::Complete => b"complete",
    }
}

// Writes the line of a node: its `status` and its `reading`.
fn write_node<W: Write>(writer: &mut W, status: Status, reading: Reading) -> Result<(), WriteFault>
    ensures { OnOk result (Appends (W.contents writer.old) (W.contents writer.new)
        (line (node_words status reading))) }
{
    let mut text = TextOf::<64>::new();
    text.put_byte(b'\n');
    text.put(reading_text(reading));
    text.put_byte(b' ');
    put_status(&mut text, status);
    text.put(b"is ");
    write_bytes(writer, text.as_bytes())
}

// Writes the line of transaction `id`, which is forwarded to partition `to`.
fn write_moved<W: Write>(writer: &mut W, id: u64, to: PartId) -> Result<(), WriteFault>
    ensures { OnOk result (Appends (W.contents writer.old) (W.contents writer.new)
        (answer_line (Moved id to))) }
{
    let mut text = TextOf::<64>::new();
    text.put_byte(b'\n');
    text.put_number(u64::from(to.number()));
    text.put_byte(b' ');
    text.put_number(id);
    text.put(b"moved ");
    write_bytes(writer, text.as_bytes())
}

// Writes the line of transaction `id`, which waits for `leaf` of segment `seg`.
fn write_waits<W: Write>(writer: &mut W, id: u64, seg: SegId, leaf: Leaf) -> Result<(), WriteFault>
    ensures { OnOk result (Appends (W.contents writer.old) (W.contents writer.new)
        (answer_line (Waits id seg leaf))) }
{
    let mut text = TextOf::<80>::new();
    text.put_byte(b'\n');
    text.put_number(leaf.number());
    text.put_byte(b' ');
    text.put_number(seg.number());
    text.put_byte(b' ');
    text.put_number(id);
    text.put(b"waits ");
    write_bytes(writer, text.as_bytes())
}

/// Writes the line that answers a step. Fails if a write fails.
pub fn write_answer<W: Write>(writer: &mut W, answer: &Answer) -> Result<(), WriteFault>
    ensures { OnOk result (Appends (W.contents writer.old) (W.contents writer.new)
        (answer_line answer.now)) }
{
    match answer {
        Answer::Done => write_bytes(writer, b"ok\n"),
        Answer::Replied { id, reply } => write_reply(writer, *id, reply),
        Answer::Moved { id, to } => write_moved(writer, *id, *to),
        Answer::Waits { id, seg, leaf } => write_waits(writer, *id, *seg, *leaf),
        Answer::Resumed { txn, reply } => write_reply(writer, txn.id(), reply),
        Answer::WasCut { note, families } => write_note(writer, b"cut ", note, *families),
        Answer::WasLoaded { note, families } => write_note(writer, b"load ", note, *families),
        Answer::Reads { status, reading } => write_node(writer, *status, *reading),
        Answer::Refused(refusal) => write_refused(writer, refusal.number()),
    }
}

/// Writes the line of the refusal with this `number`. Fails if a write fails.
#[inline(always)]
pub fn write_refused<W: Write>(writer: &mut W, number: u16) -> Result<(), WriteFault>
    ensures { OnOk result (Appends (W.contents writer.old) (W.contents writer.new)
        (refused_line number)) }
{
    let mut text = TextOf::<32>::new();
    text.put_byte(b'\n');
    text.put_number(u64::from(number));
    text.put(b"refused ");
    write_bytes(writer, text.as_bytes())
}

/// Writes the line of the fault with this `number`. Fails if a write fails.
pub fn write_fault<W: Write>(writer: &mut W, number: u16) -> Result<(), WriteFault>
    ensures { OnOk result (Appends (W.contents writer.old) (W.contents writer.new)
        (fault_line number)) }
{
    writeln!(writer, "fault {number}")?;
    Ok(())
}
