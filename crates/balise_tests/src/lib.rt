//! Tests that cross crates: whole runs of the program's `run`.
#![tactic(auto)]

#[cfg(test)]
mod tests;
