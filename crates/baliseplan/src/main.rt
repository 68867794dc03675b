//! Reads a plan, perhaps its journal, and commands from standard input, and writes replies, the plan, and the journal
//! and the view where they are asked for.
#![tactic(auto)]

use balise_cli::Baliseplan;
use balise_program::launch_on_system;
use std::process::ExitCode;

fn main(rt: HostRuntime) -> ExitCode {
    launch_on_system!(rt, Baliseplan)
}
