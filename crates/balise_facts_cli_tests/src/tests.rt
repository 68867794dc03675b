//! The tests, by topic.

mod programs;
mod rows;
