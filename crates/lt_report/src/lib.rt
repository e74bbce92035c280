//! The lines of a report, written to a sink. No call takes memory.
//!
//! `line` writes a line word by word; `lines`, `reply`, `rows`, `marks`, `show` and `traces` are the kinds of lines. Each says which bytes
//! it appends: read `specs/Texts` and `Puts`.
#![tactic(auto)]

mod line;
mod lines;
mod marks;
mod reply;
mod rows;
mod show;
mod traces;

pub use line::put_line;
pub use lines::{put_bad_item, put_bad_program, put_batch, put_fault, put_usage, put_version};
pub use marks::put_marks;
pub use reply::put_reply;
pub use show::put_rows;
pub use traces::{put_bad_trace, put_entry, put_trace};
