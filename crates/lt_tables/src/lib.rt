//! Rows from and to files of comma-separated values, and the programs that insert them.
//!
//! `tables` reads and writes files by the kit's `csv`. `table_rows` brings rows into the order of a relation's pages, and `loads` makes
//! the programs of a batch of them, without their text. Read `specs/Loads`.
#![tactic(auto)]

pub mod loads;
pub mod table_rows;
pub mod tables;
