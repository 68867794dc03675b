//! Items of fields as the digits of a telegram or of a packet: what the lines of an item give, and what it is turned into.
#![tactic(auto)]

// What the lines of an item give.
mod begins;
mod item;
mod place;
mod section;

// What an item is turned into.
mod header;
pub mod laws;
mod packets;
mod reason;
mod spelling;
mod spelling_text;
mod telegram;

pub use balise_fields::{Bits, Counted, FieldLine, FieldsFault, Var, WriteFault, read_field_line};
pub use begins::begins_item;
pub use item::Item;
pub use place::Place;
pub use reason::{Bad, Reason};
pub use spelling::{Spelling, spell_item};
pub use spelling_text::put_spelling;
