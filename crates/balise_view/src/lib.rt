//! The view of a plan: each group as one line of JSON.
#![tactic(auto)]

mod group;
mod packet;
mod telegram;

pub use group::group_line;
