//! Which lines may come in a journal.

use crate::head::Version;

/// The section of a journal that a line stands in.
#[derive(Clone, Copy, Debug, PartialEq, Eq)]
pub enum Section {
    /// Among the entries, in a journal of this version.
    Entries(Version),
    /// After the first edit that was undone.
    Undone,
}
