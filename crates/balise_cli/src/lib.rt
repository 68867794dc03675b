//! The program over any reader and writer: reads a plan, perhaps its journal, and commands; prints replies, the plan,
//! the journal and the view, or facts of the session.
#![tactic(auto)]

mod asked;

// What is read before the commands.
mod base_plan;
mod journal_reader;
mod plan_reader;

// The commands, and what is printed after them.
mod answers;
mod commands;
mod printing;

// The run over all of it.
mod exit;
pub mod laws;
mod phases;
mod running;
mod status;

// The program over its words and its three streams.
mod program;

pub use asked::{Asked, Closing, asked_by, facts_asked};
pub use balise_arguments::{ArgsFault, Flags, flags};
pub use balise_facts::Facts;
pub use balise_history::Refusal;
pub use balise_lines::Counted;
pub use balise_program::{Exit, exit_after_arguments, report, stop_without_memory};
pub use balise_text::RunFault;
pub use exit::exit_of;
pub use program::{Baliseplan, launch, start, work};
pub use running::{AtEnd, run, run_facts, run_lines};
pub use status::Status;
