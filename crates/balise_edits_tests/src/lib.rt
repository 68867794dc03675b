//! Tests of balise_edits: edits of known plans done, taken back and done again, their places and copies, which two are independent, and reviews.
#![tactic(auto)]

#[cfg(test)]
mod tests;
