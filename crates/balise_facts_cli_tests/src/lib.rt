//! Tests of balise_facts_cli: the whole program over its words.
#![tactic(auto)]

#[cfg(test)]
mod tests;
