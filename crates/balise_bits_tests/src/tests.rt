//! The tests, by topic.

mod calls;
mod edges;
mod large;
mod moves;
mod reading;
