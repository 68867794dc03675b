//! What is asked of a session and what its journal says, as values: commands and lines.
#![tactic(auto)]

mod command;
mod line;

pub use balise_bits::{Bits, BitsFault, hex_value};
pub use balise_rules::{Id, Tag, TaggedEdit, Var};
pub use command::Command;
pub use line::{Line, LineEdit, Noted};
