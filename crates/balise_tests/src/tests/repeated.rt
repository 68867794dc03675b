//! A reader of a text that comes again and again, and a writer that keeps nothing.

use balise_cli::Counted;
use std::io;
use std::io::{Read, Write};

/// Gives a text, and then another one again and again.
#[derive(Drop)]
pub(crate) struct Repeated<'a> {
    rest: &'a [u8],
    part: &'a [u8],
    times: u64,
}

impl<'a> Repeated<'a> {
    pub(crate) fn new(front: &'a [u8], part: &'a [u8], times: u64) -> Counted<Repeated<'a>> {
        Counted::new(Repeated {
            rest: front,
            part,
            times,
        })
    }
}

impl Read for Repeated<'_> {
    fn read(&mut self, buf: &mut [u8]) -> io::Result<usize> {
        if self.rest.is_empty() && self.times > 0 {
            self.times -= 1;
            self.rest = self.part;
        }
        let count = buf.len().min(self.rest.len());
        let (front, rest) = self.rest.split_at(count);
        buf[..count].copy_from_slice(front);
        self.rest = rest;
        Ok(count)
    }
}

/// Keeps nothing, and counts bytes and line ends.
#[derive(Drop)]
pub(crate) struct Tally {
    pub(crate) bytes: u64,
    pub(crate) lines: u64,
}

impl Tally {
    pub(crate) fn new() -> Counted<Tally> {
        Counted::new(Tally { bytes: 0, lines: 0 })
    }
}

impl Write for Tally {
    fn write(&mut self, buf: &[u8]) -> io::Result<usize> {
        self.bytes = self.bytes.saturating_add(buf.len() as u64);
        if buf.ends_with(b"\n") {
            self.lines = self.lines.saturating_add(1);
        }
        Ok(buf.len())
    }

    fn flush(&mut self) -> io::Result<()> {
        Ok(())
    }
}
