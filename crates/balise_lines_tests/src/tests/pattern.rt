//! A reader of a pattern.

use balise_lines::Counted;
use std::io;
use std::io::Read;

/// Gives a number of bytes: letters, and a line feed at each multiple of some distance.
#[derive(Drop)]
pub(crate) struct Pattern {
    rest: u64,
    distance: u64,
    column: u64,
}

impl Pattern {
    pub(crate) fn new(bytes: u64, distance: u64) -> Counted<Pattern> {
        Counted::new(Pattern {
            rest: bytes,
            distance,
            column: 0,
        })
    }
}

impl Read for Pattern {
    fn read(&mut self, buf: &mut [u8]) -> io::Result<usize> {
        let count = self.rest.min(buf.len() as u64) as usize;
        for place in buf[..count].iter_mut() {
            self.column = self.column.saturating_add(1);
            if self.column == self.distance {
                self.column = 0;
                *place = b'\n';
            } else {
                *place = b'a';
            }
        }
        self.rest = self.rest.saturating_sub(count as u64);
        Ok(count)
    }
}
