//! The program with `--spell`: fields from standard input are encoded as digits.
#![tactic(auto)]

use balise_fields_cli::Balisefields;
use balise_program::launch_on_system;
use std::process::ExitCode;

fn main(rt: HostRuntime) -> ExitCode {
    launch_on_system!(rt, Balisefields)
}
