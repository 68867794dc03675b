//! How a line ends.

use balise_lines::Next;

/// A line with its end.
pub(crate) const LINE: Next = Next::Line { is_ended: true };

/// The last line, without an end.
pub(crate) const LAST: Next = Next::Line { is_ended: false };
