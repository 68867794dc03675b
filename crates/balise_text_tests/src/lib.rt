//! Tests of balise_text: each kind of line once, each refusal once.
#![tactic(auto)]

#[cfg(test)]
mod tests;
