//! For tests: readers and writers that read or write few bytes a call and fail at a chosen call, whether memory may run
//! out, and the words of a command line.
#![tactic(auto)]

mod memory;
mod narrow;
mod slow;
mod words;

pub use memory::Memory;
pub use narrow::{Failure, Narrow};
pub use slow::Slow;
pub use words::arguments;
