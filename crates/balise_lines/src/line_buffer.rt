//! The bytes that were read and not yet used: at most a longest line with its end.

ghost use Rattle.std.specs.Prelude.{◌≡◌, ◌≢◌, ◌⊎◌, ◌+◌, ◌<◌, ◌≤◌, [], length, take, drop, All, MatchOption, IfErr, IfOk, OnOk, OnErr};
ghost use Rattle.std.specs.Io.{StartsWith};
ghost use Rattle.std.specs.Io.KnownBytes.{Keeps, IsAtEnd, prepend_known};
ghost use Rattle.balise_lines.specs.Counts.{one_more};
ghost use Rattle.balise_lines.specs.Lines.{EndsAt, HasNoEnd};

use crate::counted::Counted;
use crate::fault::LineFault;
use memchr::memchr;
use std::io::Read;

/// The bytes of a longest line, 4,096, and of its end.
const ROOM: usize = 4097;

/// What stands at the front of the bytes: a line with its end, and its number of bytes without it; the last line, which
/// has no end and is all that is held; nothing, at the input's end; or a line that is too long.
#[derive(Clone, Copy)]
pub(crate) enum Look {
    Line(usize),
    Last,
    End,
    TooLong,
}

/// A part of an array: at most 4,097 bytes are held.
#[derive(Drop)]
pub(crate) struct LineBuffer {
    bytes: [u8; ROOM],
    start: usize,
    end: usize,
    ghost ordered: { start ≤ end },
    ghost within: { end ≤ 4097 },
}

/// The place of the first line end, where none stands among the first `searched` bytes.
#[inline(always)]
fn find_end(bytes: &[u8], searched: usize) -> Option<usize>
    requires within { searched ≤ length bytes.now }
    requires none { HasNoEnd (take searched bytes.now) }
    ensures { MatchOption result (HasNoEnd bytes.now) (EndsAt bytes.now) }
{
    let found = memchr(b'\n', &bytes[searched..])?;
    Some(searched + found)
}

impl LineBuffer {
    ghost use Rattle.balise_lines.specs.LineBuffer.{held, NeedsMore, Sees};

    pub(crate) fn new() -> LineBuffer
        ensures { held result ≡ [] }
    {
        LineBuffer {
            bytes: [0; ROOM],
            start: 0,
            end: 0,
        }
    }

    pub(crate) fn as_slice(&self) -> &[u8]
        ensures value { result.now ≡ held self.now }
        ensures fits { length result.now ≤ 4097 }
    {
        &self.bytes[self.start..self.end]
    }

    /// Drops the first `count` bytes.
    pub(crate) fn consume(&mut self, count: usize)
        requires { count ≤ length (held self.old) }
        ensures { held self.new ≡ drop count (held self.old) }
    {
        self.start += count;
    }

    fn move_to_front(&mut self)
        ensures held { held self.new ≡ held self.old }
        ensures room { self.new.end ≡ length (held self.new) }
    {
        if self.start > 0 {
            let (start, end) = (self.start, self.end);
            self.bytes.copy_within(start..end, 0);
            self.start = 0;
            self.end = end - start;
        }
    }

    /// Reads once, after what is held, and answers how many bytes came.
    fn read_from<R: Read>(&mut self, reader: &mut Counted<R>) -> Result<usize, LineFault>
        requires room { length (held self.old) < 4097 }
        ensures bytes { Keeps (prepend_known (held self.old) (R.remaining reader.old.inner))
            (prepend_known (held self.new) (R.remaining reader.new.inner)) }
        ensures front { StartsWith (held self.new) (held self.old) }
        ensures grown { IfOk result (λ n. length (held self.new) ≡ length (held self.old) + n) }
        ensures same { IfOk result (λ n. n ≡ 0 → held self.new ≡ held self.old) }
        ensures end { IfOk result (λ n. n ≡ 0 → IsAtEnd (R.remaining reader.new.inner)) }
        ensures unfailed { OnOk result (reader.new.failed ≡ reader.old.failed) }
        ensures fault { IfErr result (λ e. e ≡ LineFault.Read) }
        ensures cause { OnErr result (reader.new.failed ≡ one_more reader.old.failed) }
        ensures kept { OnErr result (held self.new ≡ held self.old) }
    {
        self.move_to_front();
        let end = self.end;
        match reader.read(&mut self.bytes[end..]) {
            Ok(count) => {
                self.end = end + count;
                Ok(count)
            }
            Err(_) => Err(LineFault::Read),
        }
    }

    /// Reads on until it shows what stands at the front, and reads nothing where what is held shows it.
    #[inline(always)]
    pub(crate) fn look<R: Read>(&mut self, reader: &mut Counted<R>) -> Result<Look, LineFault>
        ensures bytes { Keeps (prepend_known (held self.old) (R.remaining reader.old.inner))
            (prepend_known (held self.new) (R.remaining reader.new.inner)) }
        ensures sees { IfOk result (λ look. Sees look (held self.new) (R.remaining reader.new.inner)) }
        ensures needed { NeedsMore (held self.old) ⊎ (reader.new ≡ reader.old) }
        ensures unfailed { OnOk result (reader.new.failed ≡ reader.old.failed) }
        ensures fault { IfErr result (λ e. e ≡ LineFault.Read) }
        ensures cause { OnErr result (reader.new.failed ≡ one_more reader.old.failed) }
        ensures short { OnErr result (NeedsMore (held self.old) × NeedsMore (held self.new)) }
    {
        if let Some(len) = find_end(self.as_slice(), 0) {
            return Ok(Look::Line(len));
        }
        self.look_on(reader)
    }

    // Looks at what is held first, and reads on until it shows what stands at the front.
    #[inline(never)]
    fn look_on<R: Read>(&mut self, reader: &mut Counted<R>) -> Result<Look, LineFault>
        ensures bytes { Keeps (prepend_known (held self.old) (R.remaining reader.old.inner))
            (prepend_known (held self.new) (R.remaining reader.new.inner)) }
        ensures sees { IfOk result (λ look. Sees look (held self.new) (R.remaining reader.new.inner)) }
        ensures needed { NeedsMore (held self.old) ⊎ (reader.new ≡ reader.old) }
        ensures unfailed { OnOk result (reader.new.failed ≡ reader.old.failed) }
        ensures fault { IfErr result (λ e. e ≡ LineFault.Read) }
        ensures cause { OnErr result (reader.new.failed ≡ one_more reader.old.failed) }
        ensures short { OnErr result (NeedsMore (held self.old) × NeedsMore (held self.new)) }
    {
        let mut searched = 0;
        'reads: loop {
            if let Some(len) = find_end(self.as_slice(), searched) {
                return Ok(Look::Line(len));
            }
            searched = self.as_slice().len();
            if searched >= ROOM {
                return Ok(Look::TooLong);
            }
            if self.read_from(reader)? == 0 {
                return Ok(if searched == 0 { Look::End } else { Look::Last });
            }
        }
    }
}
