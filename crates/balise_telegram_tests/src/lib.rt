//! Tests of balise_telegram: telegrams of known digits, their packets, and edits of them.
#![tactic(auto)]

#[cfg(test)]
mod tests;
