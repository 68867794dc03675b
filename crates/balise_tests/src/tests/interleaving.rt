//! Each command is answered before the next line is read.

use crate::tests::runs::{PLAIN, check_ended};
use balise_cli::{Counted, Status, run};
use std::cell::Cell;
use std::io;
use std::io::{Read, Write};

/// A plan and commands of each kind: the line, and how many bytes have to be written before it is read, which is the
/// length of all replies to the commands before it.
const LINES: &[(&str, usize)] = &[
    ("plan 1\n", 0),
    ("group\n", 0),
    (
        "a1007f80a03250900f82ffffffffffffffffffffffffffffffffc0\n",
        0,
    ),
    ("edits\n", 0),
    ("set 5.100 0 0 NID_TSR 0 9\n", 0),
    ("frobnicate\n", 5),
    ("seth 5.100 0 M_MCOUNT 7\n", 23),
    ("strike 1\n", 28),
    ("redo\n", 37),
    ("undo\n", 46),
    ("redo\n", 55),
];

/// Gives a line a call, and counts those that it gave before their replies were there.
#[derive(Drop)]
struct Watching<'a> {
    next: usize,
    early: u64,
    written: &'a Cell<usize>,
}

impl Read for Watching<'_> {
    fn read(&mut self, buf: &mut [u8]) -> io::Result<usize> {
        let Some((line, due)) = LINES.get(self.next) else {
            return Ok(0);
        };
        if self.written.get() < *due {
            self.early = self.early.saturating_add(1);
        }
        self.next = self.next.saturating_add(1);
        let line = line.as_bytes();
        let count = line.len().min(buf.len());
        buf[..count].copy_from_slice(&line[..count]);
        Ok(count)
    }
}

/// Counts the bytes that it takes, where the reader sees it.
#[derive(Drop)]
struct Watched<'a> {
    written: &'a Cell<usize>,
}

impl Write for Watched<'_> {
    fn write(&mut self, buf: &[u8]) -> io::Result<usize> {
        self.written
            .set(self.written.get().saturating_add(buf.len()));
        Ok(buf.len())
    }

    fn flush(&mut self) -> io::Result<()> {
        Ok(())
    }
}

#[test]
fn answered_before_the_next_line(rt: HostRuntime) {
    let written = Cell::new(0);
    let mut reader = Counted::new(Watching {
        next: 0,
        early: 0,
        written: &written,
    });
    let mut writer = Counted::new(Watched { written: &written });
    let ended = run(rt.alloc(), &mut reader, &mut writer, PLAIN);
    check_ended(&rt, ended, Status::SomeRefused);
    assert!(rt; reader.inner().next == LINES.len());
    assert!(rt; reader.inner().early == 0);
}
