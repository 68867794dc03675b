//! The rules of the balise plan: what its bits, packets, telegrams, groups, edits and sessions mean.
//! The rules themselves are the definitions of specs/; here are the few types that they name.
#![tactic(auto)]

mod address;
mod identity;
pub mod laws;
mod refusal;
mod review;
pub mod rows;
mod tag;
mod tagged_edit;
mod variable;

pub use address::{Address, Place};
pub use identity::{Id, NO_GROUP};
pub use refusal::Refusal;
pub use review::{ReviewLine, Reviewed};
pub use tag::Tag;
pub use tagged_edit::TaggedEdit;
pub use variable::Var;
