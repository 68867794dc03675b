//! Tests of balise_lines: that calls succeed, which no clause says, with readers and writers of the tests' own.
#![tactic(auto)]

#[cfg(test)]
mod tests;
