//! Tests of balise_index: each public call once, thousands of tags in blocks, sets that grow and shrink, and growth that
//! is refused.
#![tactic(auto)]

#[cfg(test)]
mod tests;
