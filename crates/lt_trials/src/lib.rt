//! The tests of the small crates, a file for each.
//!
//! Each file tests the crate or the type that it is named after; `agree` compares.
#![tactic(auto)]

#[cfg(test)]
mod agree;
#[cfg(test)]
mod cuts;
#[cfg(test)]
mod database;
#[cfg(test)]
mod edges;
#[cfg(test)]
mod flat;
#[cfg(test)]
mod leap;
#[cfg(test)]
mod lines;
#[cfg(test)]
mod marks;
#[cfg(test)]
mod pages;
#[cfg(test)]
mod parity;
#[cfg(test)]
mod plans;
#[cfg(test)]
mod sense;
#[cfg(test)]
mod trie;
#[cfg(test)]
mod values;
