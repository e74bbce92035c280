//! The run of a program: its answers to each statement, its marks and its reply.
//!
//! `tally` is a program, its database and a `course`: how far the run has come, with the database on which its first marks are laid and
//! the marks that came since (`specs/Tally`, `IsLaidUpTo`). `evaluation` joins one statement, `slicing` does so key by key and mends,
//! `part` keeps its answers and its certificate: a sense, or root gaps and slices; `kept` tells from the answers alone what the statement
//! wrote, `indexing` makes the indexes that a program needs. `joining` names how joins are done: as a whole, or in `splitting` by parts,
//! each in a thread of its own (`run_split`, `run_split_in_place`), where the body's first variable may have many keys (`worth`). `going`
//! runs a program without tally, on a database that takes its edits in place (`run_in_place`) or on a share of one (`run_alone`); `alone`
//! joins a statement without a sense. `writing` edits; `may_refuse` of `reading` tells where that is noted. Read `specs/Alone` and
//! `specs/Undo`.
#![tactic(auto)]

mod alone;
mod copying;
mod course;
mod displacing;
mod effect;
mod evaluation;
mod going;
mod heads;
mod indexing;
mod joining;
mod kept;
pub mod laws;
mod noting;
mod part;
mod reading;
mod slicing;
mod splitting;
mod tally;
mod worth;
mod writing;

pub use copying::{copied, copied_reply};
pub use effect::{Effect, marked};
pub use going::{Ran, run_alone, run_in_place};
pub use indexing::{has_indexes, indexed};
pub use lt_delta::{Mark, MarkList, Marks};
pub use lt_model::reply::{Printed, Prints, Reply};
pub use part::{Certificate, Found, Part, SharedPart};
pub use reading::{reads, reads_marked};
pub use splitting::{run_split, run_split_in_place};
pub use tally::{Tally, run};
pub use worth::{has_long_join, weight_of};
