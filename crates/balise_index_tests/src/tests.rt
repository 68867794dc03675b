//! The tests, by topic.

mod blocks;
mod far_identities;
mod identities;
mod link_orders;
mod links;
mod maps;
mod memory;
mod names;
