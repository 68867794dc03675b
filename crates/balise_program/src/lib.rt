//! What the programs share: what a program is, and how any of them is started; the words of a command line, how a program
//! ends, and what it reports.
#![tactic(auto)]

// A program, and how it is started.
mod command_line;
mod on_system;
mod program;
mod starting;

// What that stands on.
mod exit;
mod reporting;
mod stopping;
mod words;

pub use balise_arguments::ArgsFault;
pub use balise_lines::{Counted, WriteFault};
pub use balise_text::{Refusal, RunFault};
pub use command_line::launch;
pub use exit::{Exit, exit_after_arguments, exit_after_run};
pub use program::Program;
pub use reporting::{report, show};
pub use starting::start;
pub use stopping::{stop_at_bad_text, stop_without_memory};
pub use words::{lend, own};
