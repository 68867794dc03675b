//! Edits of a balise plan by tags, what each notes, its places, and which edits are independent.
#![tactic(auto)]

mod applying;
mod copying;
mod counting;
mod edit;
mod entry;
mod home;
mod independence;
mod kinds;
pub mod laws;
mod line;
mod listing;
mod naming;
mod note;
mod overlaps;
mod path;
mod taken;

pub use applying::{again, apply, take_back};
pub use balise_commands::{Command, Line, LineEdit, Noted};
pub use balise_plan::{
    Address, Bits, Group, GroupReader, GroupTag, Id, LinkPlace, Links, Packet, PacketTag, Place,
    Plan, Refusal, Refusal as EditFault, Spot, Tag, Telegram, Var, packet_in,
};
pub use balise_review::{ReviewLine, Reviewed, review};
pub use counting::count_apart;
pub use edit::{Edit, copy_edit};
pub use entry::Entry;
pub use independence::{apart, independent, re_anchor, stands_behind};
pub use listing::{changed_places, needed_places};
pub use path::{InGroup, InPacket, InTelegram, Path};
