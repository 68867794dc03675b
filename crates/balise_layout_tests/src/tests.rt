//! The tests, by topic.

mod bad;
mod extremes;
mod kinds;
mod known;
mod largest;
mod lent;
mod packets;
mod setting;
