//! What the arguments ask for.

/// What the arguments ask for. Without any, all is false.
#[derive(Clone, Copy, Debug, Default, PartialEq, Eq)]
pub struct Flags {
    /// `--quiet`: no reply to a command that was accepted.
    pub quiet: bool,
    /// `--stop`: no command after one that was refused.
    pub stop: bool,
    /// `--journal`: the journal after the plan.
    pub journal: bool,
    /// `--json`: a line of JSON for each group after the plan.
    pub json: bool,
}
