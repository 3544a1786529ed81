//! Tests of the crates that read definitions, print them, and fit paths to them. There is nothing in it but tests.
#![tactic(auto)]

#[cfg(test)]
mod idl_definitions_tests;
#[cfg(test)]
mod idl_fields_tests;
#[cfg(test)]
mod idl_grammar_tests;
#[cfg(test)]
mod idl_parse_tests;
#[cfg(test)]
mod idl_print_tests;
#[cfg(test)]
mod idl_profile_tests;
#[cfg(test)]
mod idl_tokens_tests;
#[cfg(test)]
mod path_text_tests;
#[cfg(test)]
mod thrift_idl_tests;
