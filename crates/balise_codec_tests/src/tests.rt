//! The tests, by topic.

mod largest;
mod misfits;
mod packets;
mod reaches;
mod spelt;
mod stops;
mod telegrams;
