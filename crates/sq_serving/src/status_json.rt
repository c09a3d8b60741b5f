// The status of an engine as JSON.
ghost use Rattle.std.specs.Prelude.{IfSome, string_bytes};
ghost use Rattle.sq_serving.specs.ServeAnswers.{json_line, IsJsonLine};
ghost use Rattle.sq_serving.specs.Becoming.{desk_value, WritesBytes, WritesJson};

use crate::desk::{ServeDesk, without_line_end};
use crate::watch::ServeWatch;
use std::io::Write;

// What is written if there are no figures.
const NOTHING: &str = "null";

// What an object begins with.
const OBJECT: &[u8] = b"{";

impl<W: Write + Drop> ServeDesk<W> {
    /// Writes the figures of `watch` as JSON, or `null` if it has none.
    pub(crate) fn say_status_json<V: ServeWatch>(&mut self, watch: &V)
        ensures { WritesJson (desk_value W.contents self.old) (desk_value W.contents self.new) }
    {
        let figures = watch.status_json(&self.figures());
        match object_in(figures) {
            Some(figures) => self.say_json(figures.as_str()),
            None => self.say_json(NOTHING),
        }
    }

    // Writes a line of JSON.
    fn say_json(&mut self, text: &str)
        ensures { WritesBytes (json_line text.now) (desk_value W.contents self.old)
            (desk_value W.contents self.new) }
    {
        self.outlet.say_json(text);
    }
}

// The text, if it is an object on one line; else `None`.
fn object_in(text: Option<String>) -> Option<String>
    ensures { IfSome result (λ text. IsJsonLine (string_bytes text)) }
{
    match without_line_end(text) {
        Some(text) if text.as_bytes().starts_with(OBJECT) => Some(text),
        _ => None,
    }
}
