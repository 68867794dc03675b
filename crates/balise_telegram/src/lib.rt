//! Telegrams of balises (SUBSET-026, 8.4.2): header, packets under their tags, and padding.
#![tactic(auto)]

mod fault;
mod header;
mod packet_digits;
mod telegram;

pub use balise_layout::{
    Bits, BitsFault, FewIdentities, LayoutFault, NO_GROUP, Packet, PacketKind, PacketRef, is_known,
};
pub use balise_rules::{Id, Refusal, Tag as PacketTag, Var};
pub use fault::TelegramFault;
pub use header::Header;
pub use packet_digits::packet_in;
pub use telegram::{Packets, Telegram, TelegramNames};
