//! The arguments of the program: `baliseplan [--quiet] [--stop] [--journal] [--json]`; and what the command lines of the
//! other programs share with it.
#![tactic(auto)]

mod arguments;
mod command_line;
mod fault;
mod options;

pub use arguments::flags;
pub use clap::Error;
pub use command_line::{flag, is_used, plain_command};
pub use fault::ArgsFault;
pub use options::Flags;
