// Readers that give little at a time, or fail.
use std::io;
use std::io::{ErrorKind, Read};

/// A reader that gives a few bytes a call, and after the last one ends or fails.
#[derive(Drop)]
pub struct Drip<'a> {
    pub rest: &'a [u8],
    pub most: usize,
    pub fails: bool,
}

impl Read for Drip<'_> {
    fn read(&mut self, buf: &mut [u8]) -> io::Result<usize> {
        if self.rest.is_empty() && self.fails {
            return Err(io::Error::from(ErrorKind::BrokenPipe));
        }
        let most = buf.len().min(self.most);
        self.rest.read(&mut buf[..most])
    }
}

/// How many bytes a reader gives a call.
pub const SIZES: [usize; 4] = [1, 2, 7, 4096];
