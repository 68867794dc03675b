//! The tests, by topic.

mod copies;
mod counting;
mod doing;
mod edits;
mod four;
mod largest;
mod neighbours;
mod pairs;
mod places;
mod reviews;
mod rows;
