//! Where a packet stands in a plan.

ghost use Rattle.std.specs.Prelude.{◌≡◌};

use balise_index::LinkPlace;
use balise_rules::Tag;

/// A packet of a telegram of a group.
#[derive(Clone, Copy)]
pub(crate) struct PacketPlace {
    pub(crate) group: Tag,
    pub(crate) telegram: u32,
    pub(crate) packet: Tag,
}

impl PacketPlace {
    /// Element `k` of it, from 0.
    pub(crate) fn element(self, k: u32) -> LinkPlace
        ensures { result ≡ record { group = self.group; telegram = self.telegram; packet = self.packet; element = k } }
    {
        LinkPlace {
            group: self.group,
            telegram: self.telegram,
            packet: self.packet,
            element: k,
        }
    }
}
