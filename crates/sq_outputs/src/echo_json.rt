// The output of a run with echoes, as JSON.
ghost use Rattle.std.specs.Prelude.{None};

use serde_json::{Map, Value};
use std::alloc::{AllocError, Global};
use std::io::Write;
use std::{io, str};

// The text between a line and its answer.
const ARROW: &str = " -> ";

// The words of an answer or of a line of a dump.
#[derive(Clone, Copy)]
struct Form {
    // The first word.
    first: &'static str,
    // The names of the words after it.
    names: &'static [&'static str],
    // The name of the list of all further words; empty if there are none.
    list: &'static str,
}

const FORMS: [Form; 12] = [
    Form {
        first: "commit",
        names: &["id"],
        list: "answers",
    },
    Form {
        first: "abort",
        names: &["id", "at", "cause"],
        list: "",
    },
    Form {
        first: "moved",
        names: &["id", "partition"],
        list: "",
    },
    Form {
        first: "waits",
        names: &["id", "segment", "leaf"],
        list: "",
    },
    Form {
        first: "cut",
        names: &NOTE,
        list: "",
    },
    Form {
        first: "load",
        names: &NOTE,
        list: "",
    },
    Form {
        first: "is",
        names: &["status", "reading"],
        list: "",
    },
    Form {
        first: "refused",
        names: &["number"],
        list: "",
    },
    Form {
        first: "end",
        names: &["phase"],
        list: "",
    },
    Form {
        first: "at",
        names: &["partition", "root", "log"],
        list: "rows",
    },
    Form {
        first: "in",
        names: &["root", "log"],
        list: "rows",
    },
    Form {
        first: "way",
        names: &WAY,
        list: "",
    },
];

// The names of the words of a note, and the same after its link.
const NOTE: [&str; 7] = ["number", "segment", "node", "lo", "hi", "mark", "count"];

const WAY: [&str; 9] = [
    "src", "dst", "number", "segment", "node", "lo", "hi", "mark", "count",
];

// The names of a status with the number of a pull.
const PULLED: [&str; 3] = ["status", "pull", "reading"];

/// A writer for what a run with echoes writes. It writes each line to `inner` as a JSON value: an
/// object with the `line` of the script, the first word of its `answer`, and the other words of the
/// answer under their names; or with the first word of a line of the `dump` and its other words; or
/// with the number of a `fault`. A byte that isn't UTF-8 becomes U+FFFD.
#[derive(Drop)]
pub struct EchoAsJson<W: Write> {
    alloc: Global,
    inner: W,
    // The bytes of the line that hasn't ended yet.
    line: Vec<u8>,
}

impl<W: Write> EchoAsJson<W> {
    /// A writer that writes JSON to `inner`.
    pub fn new(alloc: Global, inner: W) -> EchoAsJson<W> {
        EchoAsJson {
            alloc,
            inner,
            line: Vec::new(alloc),
        }
    }

    // Writes the JSON value of the line that ends here.
    fn end_line(&mut self) -> io::Result<()> {
        let text = text_of(self.alloc, &self.line)?;
        let json = line_value(self.alloc, text.as_str())?.to_string(self.alloc)?;
        self.inner.write_all(json.as_bytes())?;
        self.inner.write_all(b"\n")?;
        self.line.clear();
        Ok(())
    }
}

impl<W: Write> Write for EchoAsJson<W> {
    // Nothing is claimed of the JSON text.
    ghost contents = { λ _. None };

    fn write(&mut self, buf: &[u8]) -> io::Result<usize> {
        for byte in buf {
            if *byte == b'\n' {
                self.end_line()?;
            } else {
                self.line.push(*byte)?;
            }
        }
        Ok(buf.len())
    }

    fn flush(&mut self) -> io::Result<()> {
        self.inner.flush()
    }
}

// The text of `line`. If it isn't UTF-8, each of its bytes that isn't ASCII is U+FFFD.
fn text_of(alloc: Global, line: &[u8]) -> Result<String, AllocError> {
    if let Ok(text) = str::from_utf8(line) {
        return String::from_str(alloc, text);
    }
    let mut text = String::new(alloc);
    for byte in line {
        let is_kept = byte.is_ascii();
        text.push(if is_kept {
            char::from(*byte)
        } else {
            '\u{fffd}'
        })?;
    }
    Ok(text)
}

// The JSON value of a line of the output.
fn line_value(alloc: Global, text: &str) -> Result<Value, AllocError> {
    let mut members = Map::new(alloc);
    if let Some((line, answer)) = text.rsplit_once(ARROW) {
        put(alloc, &mut members, "line", text_value(alloc, line)?)?;
        put_words(alloc, &mut members, "answer", answer)?;
    } else if let Some(number) = text.strip_prefix("fault ") {
        put(alloc, &mut members, "fault", number_value(alloc, number)?)?;
    } else {
        put_words(alloc, &mut members, "dump", text)?;
    }
    Ok(Value::Object(members))
}

// Adds the words of `text`, the first one as `name`, the others under their names.
fn put_words(
    alloc: Global,
    members: &mut Map<String, Value>,
    name: &str,
    text: &str,
) -> Result<(), AllocError> {
    let mut text = text;
    if let Some((words, meaning)) = text.split_once(": ") {
        put(alloc, members, "meaning", text_value(alloc, meaning)?)?;
        text = words;
    }
    let (first, rest) = text.split_once(' ').unwrap_or((text, ""));
    put(alloc, members, name, text_value(alloc, first)?)?;
    for form in FORMS {
        if form.first == first {
            put_named(alloc, members, form, rest)?;
        }
    }
    Ok(())
}

// Adds the words of `text`, which follow the first word of `form`.
fn put_named(
    alloc: Global,
    members: &mut Map<String, Value>,
    form: Form,
    text: &str,
) -> Result<(), AllocError> {
    let names = names_of(form, text);
    let mut others = Vec::new(alloc);
    for (at, word) in text.split(' ').enumerate() {
        let value = word_value(alloc, word)?;
        put_or_push(alloc, members, &mut others, names.get(at), value)?;
    }
    if form.list.is_empty() {
        return Ok(());
    }
    put(alloc, members, form.list, Value::Array(others))
}

// Adds a member, or one of `others` if it has no name.
fn put_or_push(
    alloc: Global,
    members: &mut Map<String, Value>,
    others: &mut Vec<Value>,
    name: Option<&&str>,
    value: Value,
) -> Result<(), AllocError> {
    match name {
        Some(name) => put(alloc, members, name, value),
        None => {
            others.push(value)?;
            Ok(())
        }
    }
}

// The names of the words of `text`, which follow the first word of `form`.
fn names_of(form: Form, text: &str) -> &'static [&'static str] {
    if form.first == "is" && text.split(' ').count() == PULLED.len() {
        &PULLED
    } else {
        form.names
    }
}

// Adds a member.
fn put(
    alloc: Global,
    members: &mut Map<String, Value>,
    name: &str,
    value: Value,
) -> Result<(), AllocError> {
    members.insert(String::from_str(alloc, name)?, value)?;
    Ok(())
}

// The JSON value of a word: a row, a number, or else its text.
fn word_value(alloc: Global, word: &str) -> Result<Value, AllocError> {
    match word.split_once('/') {
        Some((front, note)) => row_value(alloc, front, note),
        None => number_value(alloc, word),
    }
}

// The JSON value of a number, or else the text of `word`.
fn number_value(alloc: Global, word: &str) -> Result<Value, AllocError> {
    if let Ok(number) = word.parse::<u64>() {
        return Ok(Value::from(number));
    }
    match word.parse::<i64>() {
        Ok(number) => Ok(Value::from(number)),
        Err(_) => text_value(alloc, word),
    }
}

// The JSON value of a row with this note; `front` is its number, perhaps after its key.
fn row_value(alloc: Global, front: &str, note: &str) -> Result<Value, AllocError> {
    let mut members = Map::new(alloc);
    let mut number = front;
    if let Some((key, after)) = front.split_once('=') {
        let (table, sub) = key.split_once('.').unwrap_or((key, ""));
        put(alloc, &mut members, "table", number_value(alloc, table)?)?;
        put(alloc, &mut members, "sub", number_value(alloc, sub)?)?;
        number = after;
    }
    put(alloc, &mut members, "number", number_value(alloc, number)?)?;
    put(alloc, &mut members, "note", text_value(alloc, note)?)?;
    Ok(Value::Object(members))
}

// The JSON value of a text.
fn text_value(alloc: Global, text: &str) -> Result<Value, AllocError> {
    Ok(Value::from(String::from_str(alloc, text)?))
}
