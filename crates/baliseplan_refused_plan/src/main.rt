//! The program at a plan that is refused: status 2, and one line that says where.
#![tactic(auto)]

use balise_cli::Baliseplan;
use balise_program::launch_on_system;
use std::process::ExitCode;

fn main(rt: HostRuntime) -> ExitCode {
    launch_on_system!(rt, Baliseplan)
}
