//! The repair circuit over the leaves of a work: which jobs there are to do, who does them, and what they gave. After
//! Veldhuizen, "Transaction Repair: Full Serializability Without Locks", 2014.
//!
//! The tables (`board`) stand beside the work and the tallies: `claims`, `ends` and `answers` are its calls, `job` and `run` do what was
//! claimed, on values of their own, `alone` settles by one worker. An entry of the journal names worker, job and event (`entry`, with the
//! laws of its code in `proofs/Entries`).
//!
//! A line is a row of segments, each a board with the state of its Pass, and over it what a circuit has over its board: the work, the
//! tallies and the journal, with calls of the same names (`line/claims`, `ends`, `alone`). Its jobs are those of the trees, by
//! numbers over all segments (`number`: leaf 256 * s + i, node 512 * s + v), and the Passes.
//!
//! `claim` gives the Pending job that is due for the worker (`due`), if any: the front's, or one that is run ahead of it. Else it gives some
//! Pending job: in a line one of the first segment that has one.
//!
//! ```text
//! Line: work, tallies, journal
//!  └ Row ─┬ Segment 0: board (a tree over its leaves), Pass ─► root correction of segment 1
//!         ├ Segment 1: board, Pass ─────────────────────────► root correction of segment 2
//!         └ Segment 2: board
//! ```
//!
//! The parts of a board that keep more than they show are structs of their own, each seen as a plain list: `jobs` (the states, with the
//! order in which Pending jobs are taken and a place below which none is), `holders` (the claims, with their number), `nodes` (the marks,
//! with a flag where a left child is known to have its parent's correction). So what is kept for speed is in no clause, and no proof above
//! speaks of it.
#![tactic(auto)]

mod alone;
mod answers;
pub mod board;
pub mod cells;
mod circuit;
mod claim;
mod claims;
mod due;
mod ends;
mod entry;
mod holders;
mod job;
mod jobs;
mod line;
mod nodes;
mod number;
mod order;
mod output;
pub mod row;
mod run;
pub mod segment;
mod task;
pub mod tree;
mod work;

pub use circuit::Circuit;
pub use claim::{Claim, This};
pub use ends::Spent;
pub use entry::{Entry, Event};
pub use job::Job;
pub use line::{Line, LineEntry};
pub use lt_net::{JobName, every_event_keeps, settled_is_serial};
pub use output::Output;
pub use work::LeafWork;
