//! Tests of balise_history: sessions over plans of known digits, journals read back, refused growths, and the longest sessions.
#![tactic(auto)]

#[cfg(test)]
mod tests;
