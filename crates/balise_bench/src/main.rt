//! Runs one layer of the plan editor on much input, to be timed. The first argument names the layer.
#![tactic(auto)]

mod digits;
mod groups;
mod packets;
mod plans;
mod telegrams;

use anyhow::{Result, bail};
use std::env;

fn main(rt: HostRuntime) -> Result<()> {
    let mut words = env::args(&rt)?;
    let _program = words.next();
    let Some(mode) = words.next() else {
        bail!("which layer? digits, groups, packets, plans, telegrams");
    };
    match mode.as_str() {
        "digits" => digits::run(&rt),
        "groups" => groups::run(&rt),
        "packets" => packets::run(&rt),
        "plans" => plans::run(&rt),
        "telegrams" => telegrams::run(&rt),
        other => bail!("no layer is called {other}"),
    }
}
