//! Where something is put in.

/// Where a packet is put into its telegram, or a group into its plan.
#[derive(Clone, Copy, Debug, PartialEq, Eq)]
pub enum Spot<T> {
    /// Directly after what has this tag, or first.
    After(Option<T>),
    /// Directly before what has this tag, or last.
    Before(Option<T>),
}
