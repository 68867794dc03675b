//! Tests of balise_program: how a program ends, and what it reports.
#![tactic(auto)]

#[cfg(test)]
mod tests;
