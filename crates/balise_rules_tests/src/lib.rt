//! Tests of balise_rules: its few functions.
#![tactic(auto)]

#[cfg(test)]
mod happy_paths;
