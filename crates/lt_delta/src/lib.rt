//! Marks: what a program writes, as rows that come into their relations or go.
//!
//! `merging` makes one list of marks of two, comparing all, or, where the second is much the shorter, by a search for each of its marks;
//! `adding` puts a few among others in place. `relation_marks` finds the marks of a relation, `edits` the rows that these take out and put
//! in.
#![tactic(auto)]

mod adding;
mod columns;
mod edits;
mod finding;
pub mod laws;
mod laying;
mod marks;
mod merging;
mod order;
mod relation_marks;
mod sorting;

pub use columns::{Columns, permuted_row};
pub use edits::Edits;
pub use lt_model::mark::{Mark, MarkList};
pub use marks::Marks;
