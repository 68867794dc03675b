//! The tests, by topic.

mod programs;
mod ran;
mod runs;
