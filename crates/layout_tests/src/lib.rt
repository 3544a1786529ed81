//! Tests of the crates of layouts, their schemas and contents. There is nothing in it but tests.
#![tactic(auto)]

#[cfg(test)]
mod bit_view_tests;
#[cfg(test)]
mod content_check_tests;
#[cfg(test)]
mod freezer_tests;
#[cfg(test)]
mod layout_schema_tests;
#[cfg(test)]
mod layout_tree_tests;
