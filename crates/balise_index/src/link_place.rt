//! Places of link elements.

use balise_rules::Tag;

/// Element `element` of a packet of a telegram of a group.
#[derive(Clone, Copy, Debug, PartialEq, Eq, PartialOrd, Ord)]
pub struct LinkPlace {
    /// The group.
    pub group: Tag,
    /// The telegram.
    pub telegram: u32,
    /// The packet.
    pub packet: Tag,
    /// Which element of it, from 0.
    pub element: u32,
}
