//! Tests of balise_fields_run and balise_fields_cli: whole runs, by readers and writers that give and take little, or fail.
#![tactic(auto)]

#[cfg(test)]
mod tests;
