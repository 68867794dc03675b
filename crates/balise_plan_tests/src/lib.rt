//! Tests of balise_plan: each change of plans of known digits, with what it answers and leaves.
#![tactic(auto)]

#[cfg(test)]
mod tests;
