//! Plans: groups under their tags, in order, with an index of identities and names.
#![tactic(auto)]

mod group;
mod group_names;
mod group_places;
mod group_reader;
mod links;
mod one_or_more;
mod packet_place;
mod plan;

pub use balise_index::{LinkPlace, Links, Places, Spot};
pub use balise_rules::{
    Address, Id, Place, Refusal, Refusal as PlanFault, Tag, Tag as GroupTag, Tag as PacketTag, Var,
};
pub use balise_telegram::{
    Bits, NO_GROUP, Packet, PacketRef, Telegram, TelegramFault, is_known, packet_in,
};
pub use group::Group;
pub use group_reader::GroupReader;
pub use plan::Plan;
