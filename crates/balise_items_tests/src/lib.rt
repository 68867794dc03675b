//! Tests of balise_items: items of lines, and what they are turned into.
#![tactic(auto)]

#[cfg(test)]
mod tests;
