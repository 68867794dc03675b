//! Which of the two ways a run goes.

/// Which way a run goes.
#[derive(Clone, Copy, Debug, PartialEq, Eq)]
pub enum Way {
    /// From digits to fields.
    Explain,
    /// From fields to digits.
    Spell,
}
