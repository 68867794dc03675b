//! Reviews: what to look at by hand once a group is turned round.
#![tactic(auto)]

mod distances;
mod links;
mod reviewing;

pub use balise_plan::{Plan, Refusal, Tag};
pub use balise_rules::{ReviewLine, Reviewed};
pub use reviewing::review;
