// The first words of lines that ask something of an engine.
ghost use Rattle.std.specs.Prelude.{◌≡◌};
ghost use Rattle.sq_serving.specs.ServeWords.{is_serve_word, begins_serve_line};

use sq_text::Words;

/// Returns whether a line begins with one of the words `txn`, `move`, `fold`, `status`, `rows`,
/// `plan`, `pause`, `resume`, `pumps`, `chunk`, `drop` and `owner`, with which the lines after the
/// header begin.
pub fn begins_serve_line(line: &[u8]) -> bool
    ensures { result ≡ begins_serve_line line.now }
{
    match Words::of(line).next() {
        Some(word) => is_serve_word(word),
        None => false,
    }
}

// Returns whether `word` is one of these words.
#[tactic(auto, unfolding(crate::specs::ServeWords::is_serve_word))]
fn is_serve_word(word: &[u8]) -> bool
    ensures { result ≡ is_serve_word word.now }
{
    word == b"txn".as_slice()
        || word == b"move".as_slice()
        || word == b"fold".as_slice()
        || word == b"status".as_slice()
        || word == b"rows".as_slice()
        || word == b"plan".as_slice()
        || word == b"pause".as_slice()
        || word == b"resume".as_slice()
        || word == b"pumps".as_slice()
        || word == b"chunk".as_slice()
        || word == b"drop".as_slice()
        || word == b"owner".as_slice()
}
