//! The line of a review: one thing to be looked at by hand after a group is turned.

use crate::identity::Id;
use crate::variable::Var;

/// What is to be looked at.
#[derive(Clone, Copy, Debug, PartialEq, Eq)]
pub enum Reviewed {
    /// A distance: variable, occurrence and value.
    Field(Var, u32, u32),
    /// A packet that isn't known, by its NID_PACKET.
    Opaque(u32),
}

/// A line of a review: the packet, and what is to be looked at in it.
#[derive(Clone, Copy, Debug, PartialEq, Eq)]
pub struct ReviewLine {
    /// The group.
    pub id: Id,
    /// The telegram's N_PIG.
    pub pig: u32,
    /// The packet's place in its telegram, from 0.
    pub pkt: u32,
    /// What is to be looked at.
    pub what: Reviewed,
}
