// The standard streams.
use sq_command::Input;
use std::cell::Cell;

/// What is known of the standard streams.
#[derive(Clone, Copy)]
pub struct Streams<'a> {
    /// Whether standard input is a terminal.
    pub is_typed: bool,
    /// Whether standard error is a terminal, and neither standard input nor output is.
    pub is_watched: bool,
    /// Whether a write found that the reader of standard output has closed it.
    pub is_closed: &'a Cell<bool>,
}

impl Streams<'_> {
    /// If standard input is a terminal, writes to standard error that the program waits for it, how
    /// it begins, and what ends it.
    pub fn say_wait(&self, rt: &impl Eprint, input: Input<'_>) {
        if !self.is_typed {
            return;
        }
        let first = match input.plans {
            Some(_) => "config W L C",
            None => "old PLAN",
        };
        let _ = eprintln!(rt;
            "squall: reading standard input up to its end (Ctrl-D); it begins with the line '{first}'"
        );
    }
}
