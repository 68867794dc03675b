//! A reader that gives little.

ghost use Rattle.std.specs.Prelude.{◌≡◌};

use balise_lines::Counted;
use std::io;
use std::io::{ErrorKind, Read};

/// Gives at most `step` bytes a call, and fails once, at the call of a number from 1.
#[derive(Drop)]
pub struct Slow<'a> {
    /// What wasn't given yet.
    pub bytes: &'a [u8],
    step: usize,
    fails_at: u64,
    kind: ErrorKind,
    /// How often it was called.
    pub calls: u64,
}

impl<'a> Slow<'a> {
    /// One that never fails.
    pub fn new(bytes: &'a [u8], step: usize) -> Counted<Slow<'a>>
        ensures bytes { result.inner.bytes.now ≡ bytes.now }
        ensures step { result.inner.step ≡ step }
        ensures fails_at { result.inner.fails_at ≡ 0 }
        ensures calls { result.inner.calls ≡ 0 }
    {
        Slow::failing(bytes, step, 0, ErrorKind::Other)
    }

    /// One that fails so, at the call of this number from 1; 0 is none.
    pub fn failing(
        bytes: &'a [u8],
        step: usize,
        fails_at: u64,
        kind: ErrorKind,
    ) -> Counted<Slow<'a>>
        ensures bytes { result.inner.bytes.now ≡ bytes.now }
        ensures step { result.inner.step ≡ step }
        ensures fails_at { result.inner.fails_at ≡ fails_at }
        ensures kind { result.inner.kind ≡ kind }
        ensures calls { result.inner.calls ≡ 0 }
    {
        Counted::new(Slow {
            bytes,
            step,
            fails_at,
            kind,
            calls: 0,
        })
    }
}

impl Read for Slow<'_> {
    fn read(&mut self, buf: &mut [u8]) -> io::Result<usize> {
        self.calls = self.calls.saturating_add(1);
        if self.calls == self.fails_at {
            return Err(io::Error::from(self.kind));
        }
        let count = self.step.min(buf.len()).min(self.bytes.len());
        let (front, rest) = self.bytes.split_at(count);
        buf[..count].copy_from_slice(front);
        self.bytes = rest;
        Ok(count)
    }
}
