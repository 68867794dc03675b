//! The tests, by topic.

mod ends;
mod said;
mod started;
