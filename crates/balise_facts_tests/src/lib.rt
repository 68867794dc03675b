//! Tests of balise_facts: facts of sessions with edits of each kind.
#![tactic(auto)]

#[cfg(test)]
mod tests;
