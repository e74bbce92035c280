//! The run of a program computed as it is defined, by nested loops over plain lists of rows: what tests compare the run of
//! the database with.
//!
//! `plain` is a program's run, `effects` what a statement does, `answers` the answers of a body: one atom after another, each row
//! `matching` against its terms. `rivals` are rows with one key, `laying` lays marks on plain rows. Nothing that a batch does stands on
//! it.
#![tactic(auto)]

mod answers;
mod effects;
mod laying;
mod matching;
mod plain;
mod progress;
mod rivals;

pub use laying::lay;
pub use plain::run_plain;
