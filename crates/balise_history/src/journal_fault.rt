//! Why a journal isn't read.

use balise_rules::Refusal;
use std::fmt;
use thiserror::Error;

/// Why a journal isn't read. It is shown as in `entry 3: JournalMismatch`, or `NEXT: JournalMismatch`.
#[derive(Clone, Copy, Debug, Error, PartialEq, Eq)]
#[error("{}: {}", Place(self.at), self.refusal)]
pub struct JournalFault {
    /// The place of the line that doesn't fit, from 0; none for the next serial.
    pub at: Option<usize>,
    /// `JournalMismatch`, or `OutOfMemory`.
    pub refusal: Refusal,
}

// The place of a fault, as a text names it.
#[derive(Clone, Copy)]
struct Place(Option<usize>);

impl fmt::Display for Place {
    fn fmt<W: fmt::Write>(&self, f: &mut fmt::Formatter<W>) -> fmt::Result {
        match self.0 {
            Some(at) => write!(f, "entry {at}"),
            None => f.write_str("NEXT"),
        }
    }
}
