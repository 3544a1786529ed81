//! Tests of calls that stand on each other across crates, on worked rows. There is nothing in it but tests
//! and what they share.
#![tactic(auto)]

#[cfg(test)]
mod contents;
#[cfg(test)]
mod fault;
#[cfg(test)]
mod passes;
#[cfg(test)]
mod tests;
#[cfg(test)]
mod values;
#[cfg(test)]
mod widths;
