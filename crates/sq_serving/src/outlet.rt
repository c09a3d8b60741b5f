// The output of an engine.
ghost use Rattle.std.specs.Prelude.{◌≡◌, true, false, []};
ghost use Rattle.sq_text.specs.Texts.{refused_line, fault_line};
ghost use Rattle.sq_serving.specs.Receipts.{receipt_line};
ghost use Rattle.sq_serving.specs.ServeAnswers.{serve_answer_line, status_line, json_line};
ghost use Rattle.sq_serving.specs.ServeAnswers.{plan_line};
ghost use Rattle.sq_live.specs.Outcome.{outcome_line};
ghost use Rattle.sq_serving.specs.Saying.{Says, lines_in, rows_told};

use crate::serve_answer::{ServeAnswer, write_json, write_plan, write_serve_answer, write_status};
use sq_live::{LiveOutcome, write_outcome};
use sq_model::Answer;
use sq_node::Receipt;
use sq_text::{write_answer, write_fault, write_refused};
use std::io::Write;

/// The output of an engine. After a failed write nothing more is written.
#[derive(Drop)]
pub struct Outlet<W: Write + Drop> {
    pub writer: W,
    pub has_failed: bool,
    // Whether something was written since the last flush.
    is_unflushed: bool,
}

impl<W: Write + Drop> Outlet<W> {
    /// An outlet over `writer`.
    pub fn new(writer: W) -> Outlet<W>
        ensures writer { result.writer ≡ writer }
        ensures whole { result.has_failed ≡ false }
    {
        Outlet {
            writer,
            has_failed: false,
            is_unflushed: false,
        }
    }

    /// Writes the line of a receipt.
    pub fn say_receipt(&mut self, receipt: Receipt)
        ensures { Says W.contents self.old (receipt_line receipt) self.new }
    {
        if self.has_failed {
            return;
        }
        let answer = Answer::Replied {
            id: receipt.txn.id(),
            reply: receipt.reply,
        };
        let failed = write_answer(&mut self.writer, &answer).is_err();
        self.note(failed);
    }

    /// Writes an answer to a line other than a job, or to a line that asks nothing.
    pub fn say(&mut self, answer: ServeAnswer)
        ensures { Says W.contents self.old (serve_answer_line answer) self.new }
    {
        if self.has_failed {
            return;
        }
        let failed = write_serve_answer(&mut self.writer, answer).is_err();
        self.note(failed);
    }

    /// Writes the line of the status, with `figures` after its words.
    pub fn say_status(&mut self, status: ServeAnswer, figures: &str)
        ensures { Says W.contents self.old (status_line status figures.now) self.new }
    {
        if self.has_failed {
            return;
        }
        let failed = write_status(&mut self.writer, status, figures).is_err();
        self.note(failed);
    }

    /// Writes a line of JSON.
    pub fn say_json(&mut self, text: &str)
        ensures { Says W.contents self.old (json_line text.now) self.new }
    {
        if self.has_failed {
            return;
        }
        let failed = write_json(&mut self.writer, text).is_err();
        self.note(failed);
    }

    /// Writes the line of refusal `number`.
    pub fn say_refused(&mut self, number: u16)
        ensures { Says W.contents self.old (refused_line number) self.new }
    {
        if self.has_failed {
            return;
        }
        let failed = write_refused(&mut self.writer, number).is_err();
        self.note(failed);
    }

    /// Writes the line of the plan with this text.
    pub fn say_plan(&mut self, text: &str)
        ensures { Says W.contents self.old (plan_line text.now) self.new }
    {
        if self.has_failed {
            return;
        }
        let failed = write_plan(&mut self.writer, text).is_err();
        self.note(failed);
    }

    /// Writes `lines`, the lines of rows, and then their number.
    pub fn say_rows(&mut self, lines: &[u8])
        ensures { Says W.contents self.old (rows_told lines.now) self.new }
    {
        self.say_lines(lines);
        self.say(ServeAnswer::Rows {
            count: lines_in(lines),
        });
    }

    // Writes the lines of rows.
    fn say_lines(&mut self, lines: &[u8])
        ensures { Says W.contents self.old lines.now self.new }
    {
        if self.has_failed {
            return;
        }
        let failed = self.writer.write_all(lines).is_err();
        self.note(failed);
    }

    /// Writes the line of the outcome.
    pub fn say_outcome(&mut self, outcome: LiveOutcome)
        ensures { Says W.contents self.old (outcome_line outcome) self.new }
    {
        if self.has_failed {
            return;
        }
        let failed = write_outcome(&mut self.writer, outcome).is_err();
        self.note(failed);
    }

    /// Writes the line of fault `number`, which belongs to no input line.
    pub fn say_fault(&mut self, number: u16)
        ensures { Says W.contents self.old (fault_line number) self.new }
    {
        if self.has_failed {
            return;
        }
        let failed = write_fault(&mut self.writer, number).is_err();
        self.note(failed);
    }

    /// Flushes what was written since the last flush.
    pub fn flush(&mut self)
        ensures { Says W.contents self.old [] self.new }
    {
        if self.has_failed || !self.is_unflushed {
            return;
        }
        self.is_unflushed = false;
        self.has_failed = self.writer.flush().is_err();
    }

    // Records a write, and whether it failed.
    fn note(&mut self, failed: bool)
        ensures { self.new ≡ record self.old { has_failed = failed; is_unflushed = true } }
    {
        self.has_failed = failed;
        self.is_unflushed = true;
    }
}

// The byte that ends a line.
const LINE_END: u8 = 10;

// How many line ends a text has.
fn lines_in(text: &[u8]) -> u64
    ensures { result ≡ lines_in text.now }
{
    text.iter().filter(|byte| **byte == LINE_END).count() as u64
}
