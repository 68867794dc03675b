//! The tests, by topic.

mod largest;
mod sessions;
mod told;
