//! The program `balisefacts`: it runs commands over a plan, and prints facts of the session that stands then.
#![tactic(auto)]

mod arguments;
mod program;

pub use balise_program::{Counted, Exit, Refusal, launch, stop_without_memory};
pub use program::Balisefacts;
