//! Tests of the crates of whole files, of what they answer, and of the demo. There is nothing in it but tests.
#![tactic(auto)]

#[cfg(test)]
mod cli_texts_tests;
#[cfg(test)]
mod demo_table_tests;
#[cfg(test)]
mod evolve_tests;
#[cfg(test)]
mod file_check_tests;
#[cfg(test)]
mod file_value_tests;
#[cfg(test)]
mod frozen_file_tests;
