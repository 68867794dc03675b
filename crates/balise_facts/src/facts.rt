//! Which facts of a session are printed.

/// Which facts of a session are printed.
#[derive(Clone, Copy, Debug, PartialEq, Eq)]
pub enum Facts {
    /// Of each standing edit, by rising serial: what it changes, what it needs, and the later ones that depend on it.
    Edits,
    /// Of the edit of this serial alone, if it stands, what `Edits` prints of each.
    Edit(u32),
    /// The tags of the groups, telegrams and packets of the plan, in order.
    Tags,
}
