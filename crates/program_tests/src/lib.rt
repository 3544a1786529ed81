//! Tests of whole runs of the program, over files and sinks in memory. There is nothing in it but tests.
#![tactic(auto)]

#[cfg(test)]
mod frozen_cli_tests;
