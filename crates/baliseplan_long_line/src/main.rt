//! The program at a line that is too long: status 3, and all that the lines before it print.
#![tactic(auto)]

use balise_cli::Baliseplan;
use balise_program::launch_on_system;
use std::process::ExitCode;

fn main(rt: HostRuntime) -> ExitCode {
    launch_on_system!(rt, Baliseplan)
}
