//! What a run writes to.

ghost use Rattle.std.specs.Prelude.{◌≡◌, [], IfOk, Some};

use std::alloc::{AllocError, Global};
use std::io;
use std::io::Write;

/// A text that takes no more bytes than it has room for. It owns its bytes: `run` works for any writer, so its contract
/// can't state that a writer still lends the slice that it was made of.
#[derive(Drop)]
pub(crate) struct OutputText {
    bytes: Vec<u8>,
    room: usize,
}

impl OutputText {
    /// An empty text whose room is allocated at once, so that no later write runs out of memory.
    pub(crate) fn with_room(alloc: Global, room: usize) -> Result<OutputText, AllocError>
        ensures { IfOk result (λ text. text.bytes.items ≡ []) }
    {
        let bytes = Vec::with_capacity(alloc, room)?;
        Ok(OutputText { bytes, room })
    }

    /// An empty text that grows as far as memory goes.
    pub(crate) fn growing(alloc: Global) -> OutputText
        ensures { result.bytes.items ≡ [] }
    {
        OutputText {
            bytes: Vec::new(alloc),
            room: usize::MAX,
        }
    }

    /// What was written.
    pub(crate) fn bytes(&self) -> &[u8]
        ensures { result.now ≡ self.now.bytes.items }
    {
        self.bytes.as_slice()
    }
}

impl Write for OutputText {
    ghost contents = { λ text. Some text.bytes.items };

    fn write(&mut self, buf: &[u8]) -> io::Result<usize> {
        let left = self.room.saturating_sub(self.bytes.len());
        let count = buf.len().min(left);
        self.bytes.extend_from_slice(&buf[..count])?;
        Ok(count)
    }

    fn flush(&mut self) -> io::Result<()> {
        Ok(())
    }
}
