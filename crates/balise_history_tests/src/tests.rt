//! The tests, by topic.

mod dependents;
mod growths;
mod largest;
mod links;
mod openings;
mod rows;
mod sessions;
