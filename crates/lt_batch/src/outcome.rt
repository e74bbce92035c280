//! What a batch gives.
use crate::work::BatchWork;
use lt_base::Database;
use lt_circuit::{Circuit, Line};
use lt_delta::Marks;
use lt_face::items::Items;
use lt_model::reply::Reply;

/// A reply for each program.
pub type Replies = Items<Reply>;

/// The marks that each program wrote.
pub type Effects = Items<Marks>;

/// What the programs of a batch answered and wrote, the database that they left, and the circuit that ran them.
#[derive(Drop)]
pub struct Outcome {
    pub replies: Replies,
    pub effects: Effects,
    pub db: Database,
    pub circuit: Circuit<BatchWork>,
}

/// The replies of each batch.
pub type LineReplies = Items<Replies>;

/// The marks that the programs of each batch wrote.
pub type LineEffects = Items<Effects>;

/// What the programs of several batches answered and wrote, the database that they left, and the line that ran them.
#[derive(Drop)]
pub struct LineOutcome {
    pub replies: LineReplies,
    pub effects: LineEffects,
    pub db: Database,
    pub line: Line<BatchWork>,
}
