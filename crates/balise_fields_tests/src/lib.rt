//! Tests of balise_fields: lines read, and digits explained.
#![tactic(auto)]

#[cfg(test)]
mod tests;
