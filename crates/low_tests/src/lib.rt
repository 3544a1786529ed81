//! Tests of the crates of lists, bits, blocks, readers, keys, files and wire bytes. There is nothing in it but tests.
#![tactic(auto)]

#[cfg(test)]
mod base_lists_tests;
#[cfg(test)]
mod bit_field_tests;
#[cfg(test)]
mod block_region_tests;
#[cfg(test)]
mod compact_wire_tests;
#[cfg(test)]
mod exact_reading_tests;
#[cfg(test)]
mod fz_base_tests;
#[cfg(test)]
mod key_lookup_tests;
#[cfg(test)]
mod key_order_tests;
#[cfg(test)]
mod name_index_tests;
#[cfg(test)]
mod wire_events_tests;
#[cfg(test)]
mod wire_scan_tests;
