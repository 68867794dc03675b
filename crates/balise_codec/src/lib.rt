//! Packets and telegrams as lists of fields, and back.
#![tactic(auto)]

mod explain;
mod fault;
mod given;
mod head;
mod header;
pub mod laws;
mod misfit;
mod placed;
mod reach;
mod spell;
mod stop;
mod telegram;
mod trace;

pub use balise_bits::Bits;
pub use balise_layout::{LayoutFault, Packet};
pub use balise_rules::Var;
pub use balise_telegram::{Header, TelegramFault, packet_in};
pub use explain::{
    PacketFields, TelegramFields, explain_header, explain_packets, explain_telegram,
};
pub use fault::SpellFault;
pub use given::spell_given;
pub use head::packet_fault;
pub use misfit::{Misfit, find_misfit, misfit_of};
pub use placed::{Placed, place_all};
pub use reach::{Reach, fields_to_fault};
pub use spell::{spell_packet, write_values};
pub use stop::{Stop, packets_end};
pub use telegram::{PacketValues, TelegramMisfit, spell_telegram};
pub use trace::Due;
