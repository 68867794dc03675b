//! The tests, by topic.

mod ends;
mod faults;
mod limits;
mod pattern;
mod reading;
mod writing;
