//! The tests, by topic.

mod arguments;
mod command_lines;
