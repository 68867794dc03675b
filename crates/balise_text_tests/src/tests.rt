//! The tests, by topic.

mod commands;
mod journals;
mod replies;
