//! Whether memory may run out.

/// Whether a growth of memory may be refused in a run of a test.
#[derive(Clone, Copy, PartialEq, Eq)]
pub enum Memory {
    Ample,
    OneRefused,
}
