//! Tests of balise_codec: packets encoded from their fields, values that aren't due, and bits that are no packet.
#![tactic(auto)]

#[cfg(test)]
mod tests;
