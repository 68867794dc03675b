//! The lines of an input, one at a time.

ghost use Rattle.std.specs.Prelude.{◌≡◌, ◌⊎◌, ◌+◌, ◌<◌, ◌≤◌, [], length, true, false, IfErr, IfOk, OnOk, OnErr, IsErrOf};
ghost use Rattle.std.specs.Io.KnownBytes.{Keeps};
ghost use Rattle.balise_lines.specs.Counts.{one_more};
ghost use Rattle.balise_lines.specs.LineBuffer.{held, NeedsMore};

use crate::counted::Counted;
use crate::fault::LineFault;
use crate::line_buffer::{LineBuffer, Look};
use std::io::Read;

/// The bytes that an input may have, line ends with them.
const LONGEST_INPUT: u64 = 67_108_864;

/// What the reading came to: a line, which a line feed ends, or which is the last one and has no end; or the input's
/// end, and no further line.
#[derive(Clone, Copy, Debug, PartialEq, Eq)]
pub enum Next {
    Line { is_ended: bool },
    End,
}

/// Reads lines of at most 4,096 bytes from an input of at most 67,108,864 bytes. The line that was read last stands at
/// the front of the array of its bytes. The next call drops it. Nothing is copied.
#[derive(Drop)]
pub struct Lines {
    buffer: LineBuffer,
    /// The bytes of the line that was read last, without its end and with it.
    len: usize,
    taken: usize,
    next_place: u64,
    next_number: u64,
    /// Whether the input's end was seen: the last line was read and had no end, or there was none.
    over: bool,
    ghost within: { taken ≤ length (held buffer) },
    ghost inside: { len ≤ taken },
    ghost placed: { next_place ≤ 67108864 },
    ghost numbered: { next_number ≤ next_place + 1 },
}

impl Lines {
    ghost use Rattle.balise_lines.specs.Reading.{ahead, is_over, left, line_of, number_of, place_of, LongNext, OverAtEnd, SamePlace, Took};

    /// Before the first line.
    pub fn new() -> Lines
        ensures ahead { ahead result ≡ [] }
        ensures place { place_of result ≡ 0 }
        ensures number { number_of result ≡ 1 }
        ensures over { is_over result ≡ false }
    {
        Lines {
            buffer: LineBuffer::new(),
            len: 0,
            taken: 0,
            next_place: 0,
            next_number: 1,
            over: false,
        }
    }

    /// The line that was read last, without its end.
    pub fn line(&self) -> &[u8]
        ensures { result.now ≡ line_of self.now }
    {
        &self.buffer.as_slice()[..self.len]
    }

    /// The number of the line that comes next, from 1.
    pub fn number(&self) -> u64
        ensures { result ≡ number_of self.now }
    {
        self.next_number
    }

    /// The place in the input where the next line begins: the bytes of the lines so far, with their ends.
    pub fn place(&self) -> u64
        ensures { result ≡ place_of self.now }
    {
        self.next_place
    }

    fn drop_line(&mut self)
        ensures ahead { held self.new.buffer ≡ ahead self.old }
        ensures line { (self.new.len ≡ 0) × (self.new.taken ≡ 0) }
        ensures same { SamePlace self.old self.new }
    {
        self.buffer.consume(self.taken);
        self.len = 0;
        self.taken = 0;
    }

    /// Takes the first `taken` bytes that are held for the next line, which has `len` without its end.
    fn take_line(&mut self, len: usize, taken: usize, over: bool) -> Result<(), LineFault>
        requires inside { len ≤ taken }
        requires some { 0 < taken }
        requires within { taken ≤ length (held self.old.buffer) }
        ensures fits { OnOk result (place_of self.old + taken ≤ 67108864) }
        ensures line { OnOk result ((self.new.len ≡ len) × (self.new.taken ≡ taken) × (is_over self.new ≡ over)) }
        ensures place { OnOk result ((place_of self.new ≡ place_of self.old + taken) × (number_of self.new ≡ number_of self.old + 1)) }
        ensures held { self.new.buffer ≡ self.old.buffer }
        ensures fault { IfErr result (λ e. e ≡ LineFault.TooLong) }
        ensures long { OnErr result (67108864 < place_of self.old + taken) }
        ensures same { OnErr result (self.new ≡ self.old) }
    {
        if self.next_place + taken as u64 > LONGEST_INPUT {
            return Err(LineFault::TooLong);
        }
        self.next_place += taken as u64;
        self.next_number += 1;
        self.len = len;
        self.taken = taken;
        self.over = over;
        Ok(())
    }

    /// Reads the next line, if there is one. Calls the reader only if what was read ahead doesn't show the line.
    ///
    /// A fault is a line that is too long, or a failed call of the reader, also one that was only interrupted. Then no
    /// line is taken, and the next call looks at the same place of the input again.
    pub fn next<R: Read>(&mut self, reader: &mut Counted<R>) -> Result<Next, LineFault>
        requires over { OverAtEnd self.old (R.remaining reader.old.inner) }
        ensures over { OverAtEnd self.new (R.remaining reader.new.inner) }
        ensures took { IfOk result (λ next. Took next self.old (R.remaining reader.old.inner) self.new (R.remaining reader.new.inner)) }
        ensures long { IsErrOf result LineFault.TooLong → LongNext (left self.old (R.remaining reader.old.inner)) (place_of self.old) }
        ensures cause { IsErrOf result LineFault.Read → reader.new.failed ≡ one_more reader.old.failed }
        ensures needed { NeedsMore (ahead self.old) ⊎ (reader.new ≡ reader.old) }
        ensures ended { is_over self.old ≡ true → reader.new ≡ reader.old }
        ensures short { IsErrOf result LineFault.Read → NeedsMore (ahead self.old) × NeedsMore (ahead self.new) }
        ensures unfailed { OnOk result (reader.new.failed ≡ reader.old.failed) }
        ensures uncounted { IsErrOf result LineFault.TooLong → reader.new.failed ≡ reader.old.failed }
        ensures kept { OnErr result (Keeps (left self.old (R.remaining reader.old.inner)) (left self.new (R.remaining reader.new.inner))) }
        ensures same { OnErr result (SamePlace self.old self.new) }
        ensures no_line { OnErr result (line_of self.new ≡ []) }
        ensures first { OnErr result (is_over self.old ≡ false) }
    {
        self.drop_line();
        if self.over {
            return Ok(Next::End);
        }
        match self.buffer.look(reader) {
            Err(fault) => Err(fault),
            Ok(Look::TooLong) => Err(LineFault::TooLong),
            Ok(Look::End) => {
                self.over = true;
                Ok(Next::End)
            }
            Ok(Look::Last) => {
                let len = self.buffer.as_slice().len();
                self.take_line(len, len, true)?;
                Ok(Next::Line { is_ended: false })
            }
            Ok(Look::Line(len)) => {
                self.take_line(len, len + 1, false)?;
                Ok(Next::Line { is_ended: true })
            }
        }
    }
}
