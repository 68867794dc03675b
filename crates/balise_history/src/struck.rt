//! What a strike answers.

/// An edit that was struck.
#[derive(Clone, Copy, Debug, PartialEq, Eq)]
pub struct Struck {
    /// The serial of the edit.
    pub serial: u32,
    /// The number of later edits that stood. Each was compared with it.
    pub compared: usize,
}
