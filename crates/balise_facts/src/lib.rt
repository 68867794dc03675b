//! Facts of a session, as they are printed: what its standing edits change and need, which of them depend on which, and
//! the tags of its plan.
#![tactic(auto)]

mod edits;
mod facts;
mod places;
mod printing;
mod tag_text;
mod tags;

pub use balise_history::Session;
pub use balise_lines::Counted;
pub use balise_text::RunFault;
pub use facts::Facts;
pub use printing::put_facts;
