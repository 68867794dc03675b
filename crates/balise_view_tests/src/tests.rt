//! The tests, by topic.

mod groups;
mod largest;
