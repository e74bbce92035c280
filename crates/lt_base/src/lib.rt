//! A database: relations with their rows, each in one or more orders of its columns.
//!
//! `database` is relations by number, behind an `Arc` each. A `relation` has its rows in its own order of columns, and in an `index` for
//! each other order that programs need; `columns` are these orders, `sorting` puts rows in one. `changes` are rows that one database has
//! and another hasn't. Read `specs/Tables` (the state of a database), then `Edited`.
#![tactic(auto)]

mod changes;
mod columns;
mod database;
mod index;
mod relation;
mod sorting;
mod walk;

pub use changes::differing;
pub use database::{Database, Rows};
