//! A session over a balise plan: edits by address, undo, redo and strike in place.
#![tactic(auto)]

mod dependents;
mod edited;
mod history;
mod journal_fault;
pub mod laws;
mod opening;
mod resolving;
mod session;
mod struck;

pub use balise_edits::{
    Bits, Command, Edit, Entry, Group, GroupReader, GroupTag, Id, Line, LineEdit, LinkPlace, Links,
    Noted, Packet, PacketTag, Plan, Refusal, ReviewLine, Reviewed, Spot, Tag, Telegram, Var,
    review,
};
pub use journal_fault::JournalFault;
pub use opening::Opening;
pub use session::Session;
pub use struck::Struck;
