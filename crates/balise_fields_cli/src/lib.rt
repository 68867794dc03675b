//! The program `balisefields`: digits are explained as fields, and fields are encoded as digits.
#![tactic(auto)]

mod arguments;
mod exit;
mod program;

pub use balise_program::{Counted, Exit, Refusal, launch, stop_without_memory};
pub use program::Balisefields;
