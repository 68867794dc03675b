//! The runs from digits to fields and from fields to digits, over any reader and writer.
#![tactic(auto)]

mod explaining;
mod item_line;
pub mod laws;
mod next;
mod running;
mod spelling;
mod status;
mod way;

pub use balise_lines::Counted;
pub use balise_rules::Refusal;
pub use balise_text::RunFault;
pub use explaining::explain_lines;
pub use running::run;
pub use spelling::spell_lines;
pub use status::Status;
pub use way::Way;
