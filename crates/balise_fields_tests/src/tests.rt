//! The tests, by topic.

mod explained;
mod lines;
mod rows;
