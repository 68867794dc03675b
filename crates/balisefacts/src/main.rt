//! Reads a plan and commands from standard input and writes facts of the session that stands then.
#![tactic(auto)]

use balise_facts_cli::Balisefacts;
use balise_program::launch_on_system;
use std::process::ExitCode;

fn main(rt: HostRuntime) -> ExitCode {
    launch_on_system!(rt, Balisefacts)
}
