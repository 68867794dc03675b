//! What each kind of edit makes of a plan: done, taken back and done again, side by side.

pub(crate) mod fields;
pub(crate) mod groups;
pub(crate) mod names;
pub(crate) mod packets;
pub(crate) mod turns;
