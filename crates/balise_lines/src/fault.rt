//! Why a line isn't read, or a text not written.

use thiserror::Error;

/// Why no line was read: the next one has more than 4,096 bytes without its end or ends past byte 67,108,864 of the
/// input, or a call of the reader failed.
#[derive(Clone, Copy, Debug, Error, PartialEq, Eq)]
pub enum LineFault {
    #[error("a line or the input is too long")]
    TooLong,
    #[error("the reader failed")]
    Read,
}

/// Why not all of a text was written: a call of the writer failed, by an error or by a write of some bytes that took
/// none.
#[derive(Clone, Copy, Debug, Error, PartialEq, Eq)]
pub enum WriteFault {
    #[error("the writer failed")]
    Write,
}
