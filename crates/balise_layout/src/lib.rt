//! Packets of telegrams (SUBSET-026, chapter 7): known ones by the tables of their fields, others bit for
//! bit. A packet is held as its packed bits; contracts see its fields and the rest of its bits.
#![tactic(auto)]

mod bounds;
mod collect;
mod elements;
mod fault;
mod few;
mod kind;
pub mod laws;
mod layout;
mod named;
mod packet;
mod packet_ref;
mod parts;
mod search;
mod tables;
mod visit;
mod walk;
mod walker;

pub use balise_bits::{Bits, BitsFault};
pub use balise_rules::{Id, NO_GROUP, Refusal, Tag, Var};
pub use collect::Collect;
pub use elements::{Elements, MOST_ELEMENTS};
pub use fault::LayoutFault;
pub use few::FewIdentities;
pub use kind::{PacketKind, is_known, may_have_elements};
pub use layout::Layout;
pub use named::Named;
pub use packet::Packet;
pub use packet_ref::PacketRef;
pub use tables::{
    GradientProfile, InfillLocation, LevelTransition, Linking, Opaque, Revocation, SpeedProfile,
    SpeedRestriction,
};
pub use visit::Visit;
pub use walk::Walk;
pub use walker::Walker;
