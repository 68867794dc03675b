//! Tests of balise_view: worked rows, computed by a program that shares nothing with this one.
#![tactic(auto)]

#[cfg(test)]
mod tests;
