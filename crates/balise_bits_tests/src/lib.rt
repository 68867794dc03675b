//! Tests of balise_bits: each public call once, on telegrams of 210 and 830 bits, long texts, and
//! parts that are cut, put and moved.
#![tactic(auto)]

#[cfg(test)]
mod tests;
