//! Tests of balise_layout: packets of each kind read, listed, set and written, and bits that are no packet.
#![tactic(auto)]

#[cfg(test)]
mod tests;
