//! A script that makes a state, and whether two states are the same.
//!
//! `dump` makes the text, of declarations (`schema_text`) and of batches that insert all rows (`inserts`). `comparing` compares what a
//! script made with what it was to make: `is_same_state` says that the rows are the same, `are_same_headings` the declarations.
#![tactic(auto)]

pub mod comparing;
pub mod dump;
pub mod inserts;
pub mod schema_text;
