//! Tests of balise_arguments: what `flags` answers.
#![tactic(auto)]

#[cfg(test)]
mod tests;
