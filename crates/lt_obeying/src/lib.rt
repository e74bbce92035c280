//! What the commands of the console do.
//!
//! `obeying` does what a command says: it shows declarations, has a table's rows inserted (`inserting`, batch after batch) or written,
//! writes a dump, which `dump_check` runs in a world of its own before, and has `explained` explain a line. Read
//! `specs/Dumped`.
#![tactic(auto)]

pub mod dump_check;
mod explained;
mod inserting;
pub mod obeying;
