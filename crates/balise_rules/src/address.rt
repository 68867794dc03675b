//! Where something stands: by identity and place, or by tags.

use crate::identity::Id;
use crate::tag::Tag;
use crate::variable::Var;

/// Where something stands, as a command says it: places count from 0.
#[derive(Clone, Copy)]
pub enum Address {
    /// A group.
    Group(Id),
    /// A telegram, by its N_PIG.
    Telegram(Id, u32),
    /// A packet, by its place in its telegram.
    Packet(Id, u32, u32),
    /// A field of a header.
    Head(Id, u32, Var),
    /// An occurrence of a variable in a packet.
    Field(Id, u32, u32, Var, u32),
}

/// Where something stands, by tags.
#[derive(Clone, Copy)]
pub enum Place {
    /// A group.
    Group(Tag),
    /// A telegram of a group.
    Telegram(Tag, u32),
    /// A packet of a telegram.
    Packet(Tag, u32, Tag),
    /// A field of a header.
    Head(Tag, u32, Var),
    /// An occurrence of a variable in a packet.
    Field(Tag, u32, Tag, Var, u32),
}
