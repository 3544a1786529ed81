//! Tests of the crates of values, and of their spellings in Compact Protocol. There is nothing in it but tests.
#![tactic(auto)]

#[cfg(test)]
mod compact_codec_tests;
#[cfg(test)]
mod typed_tree_tests;
