//! The line layer: readers and writers whose failed calls are counted, the lines of an input one at a
//! time, and texts that are written whole.
#![tactic(auto)]

mod counted;
mod fault;
pub mod laws;
mod line_buffer;
mod lines;
mod putting;

pub use counted::Counted;
pub use fault::{LineFault, WriteFault};
pub use lines::{Lines, Next};
pub use putting::put;
