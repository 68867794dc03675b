//! A writer that takes little.

ghost use Rattle.std.specs.Prelude.{◌≡◌, []};

use balise_lines::Counted;
use std::alloc::Global;
use std::io;
use std::io::{ErrorKind, Write};

/// How a write fails: by an error, or in that it takes nothing.
#[derive(Clone, Copy)]
pub enum Failure {
    Error(ErrorKind),
    TakesNone,
}

/// Takes at most `step` bytes a call, and fails once, at the call of a number from 1. A flush is a call too, and fails by
/// an error.
#[derive(Drop)]
pub struct Narrow {
    /// What it took.
    pub text: Vec<u8>,
    step: usize,
    fails_at: u64,
    failure: Failure,
    /// How often it was called.
    pub calls: u64,
}

impl Narrow {
    /// One that fails so, at the call of this number from 1; 0 is none.
    pub fn new(alloc: Global, step: usize, fails_at: u64, failure: Failure) -> Counted<Narrow>
        ensures text { result.inner.text.items ≡ [] }
        ensures step { result.inner.step ≡ step }
        ensures fails_at { result.inner.fails_at ≡ fails_at }
        ensures failure { result.inner.failure ≡ failure }
        ensures calls { result.inner.calls ≡ 0 }
    {
        Counted::new(Narrow {
            text: Vec::new(alloc),
            step,
            fails_at,
            failure,
            calls: 0,
        })
    }

    fn fails(&mut self) -> bool {
        self.calls = self.calls.saturating_add(1);
        self.calls == self.fails_at
    }
}

impl Write for Narrow {
    fn write(&mut self, buf: &[u8]) -> io::Result<usize> {
        if self.fails() {
            return match self.failure {
                Failure::Error(kind) => Err(io::Error::from(kind)),
                Failure::TakesNone => Ok(0),
            };
        }
        let count = buf.len().min(self.step);
        self.text.extend_from_slice(&buf[..count])?;
        Ok(count)
    }

    fn flush(&mut self) -> io::Result<()> {
        if self.fails() {
            return Err(io::Error::from(ErrorKind::Other));
        }
        Ok(())
    }
}
