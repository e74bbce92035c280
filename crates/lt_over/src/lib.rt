//! A set of rows with a few edits laid over it.
//!
//! An `Over` is a base, which is any row set, under a `Layer`. `search` finds its least row: that of the rows that come first, and then
//! base rows only until they reach it. `edits` are single ones, `counting` is how many rows there are. `SharedOver` is an `Over` of
//! `SharedRows` as a type without parameters, which `lt_base` calls `Rows`. A correction is laid at once (`laid`), as one layer with what
//! lies there, and stays over the pages. `run` answers the rows of the base up to the first edit: only at an edit is a row answered alone.
#![tactic(auto)]

mod about;
mod counting;
mod edits;
mod layer;
mod many;
mod over;
mod run;
mod search;
mod shared_over;
pub mod sharing;

pub use shared_over::SharedOver;
