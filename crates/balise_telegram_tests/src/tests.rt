//! The tests, by topic.

mod alone;
mod changes;
mod full;
mod header;
mod kinds;
mod largest;
mod lent;
mod memory;
mod order;
mod packets;
mod put;
mod telegram;
mod telegrams;
