//! The tests, by topic.

mod bounds;
mod cuts;
mod exits;
mod facts;
mod faults;
mod flags;
mod interleaving;
mod journal_cuts;
mod large_packets;
mod largest;
mod plans;
mod programs;
mod repeated;
mod rows;
mod runs;
