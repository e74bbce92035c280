//! A batch of programs: each starts on one snapshot, and is corrected by what those before it do.
//!
//! `fold` is the run in order. Where programs show to be dear (`pace`: by the moves that `Moves` counts as they run), rounds of the next
//! ones are run ahead by several threads (`ahead`): those that none before them in the round has a bearing on (`round`, by the constants
//! of what these write) keep their replies and marks, others their tallies, and each is taken or corrected at its turn: `restate_marks`
//! evaluates those statements again that a changed row touches. All else is for circuits.
//! `work` is the leaves (`BatchWork`): a run of a program on the corrected snapshot, or its restatement where the claim brought an older
//! tally of it. Nothing of a correction is laid where the program reads no relation that it marks (`marks_to_lay`); where that was so for
//! the older tally too, the older one is kept (`tally_on`). So each tally keeps its senses, and each run of a leaf restates the one before.
//! `early` runs programs with long joins by parts (`run_split`) before a circuit or a line starts; a leaf without an older tally restates such a
//! run. `gathering` is what a settled circuit answered. `replaying` is a batch by a journal that was written down: `entries` does each
//! entry on a new circuit, and keeps the jobs that workers hold meanwhile, by worker.
//!
//! Batches that follow one another run as one line (`line`). Its work is one `BatchWork` over the programs of all of them, batch after
//! batch, so that they share one snapshot with all indexes, plans and early runs; `spans` tells where each batch stands in it. Leaf 256 * s
//! + i is program i of batch s, and a batch that runs alone is a line's first. The Pass before a segment gives its root what all batches before it wrote, so each program is corrected by all programs before it, in its own batch and in
//! others. Whoever hands in an `OnFinal` is given what a batch wrote in all once the front has passed its segment, by the first worker
//! between its jobs, while the others run. `line_gathering` is what a settled line answered.
#![tactic(auto)]

mod ahead;
mod batch;
mod bearing;
mod early;
mod entries;
mod fold;
mod gathering;
mod indexing;
pub mod leaf;
mod line;
mod line_gathering;
pub mod outcome;
mod pace;
mod replaying;
mod rest;
mod round;
pub mod spans;
mod ties;
pub mod work;

pub use batch::run_batch;
pub use fold::{Folded, fold_batch};
pub use leaf::LeafTally;
pub use line::run_line;
pub use outcome::{Effects, LineEffects, LineOutcome, LineReplies, Outcome, Replies};
pub use pace::Pace;
pub use replaying::{
    Journal, ReplayFault, Written, replay_batch, settled_entries_are_faultless, write_down,
};
pub use spans::ProgList;
pub use work::BatchWork;
