//! The tests, by topic.

mod begins;
mod items;
mod largest;
mod rows;
