//! What stands at a node, and what a worker holds.
#![tactic(auto)]

use lt_delta::Marks;
use lt_net::JobName;

/// The marks before a part of the tree, and what the part does on them.
#[derive(Drop)]
pub struct Node {
    pub correction: Marks,
    pub effect: Marks,
}

/// The inputs of a job, as they stood when it was claimed.
#[derive(Drop)]
pub enum Inputs {
    One(Marks),
    Two(Marks, Marks),
}

/// A worker's claim: the job, the inputs captured, and for a leaf the correction of its tally.
#[derive(Drop)]
pub struct Held {
    pub job: JobName,
    pub inputs: Inputs,
    pub prior: Option<Marks>,
}

/// What a claim captures: the inputs, second owners of them, and for a leaf the correction that it last finished with.
#[derive(Drop)]
pub struct Captured {
    pub held: Inputs,
    pub given: Inputs,
    pub prior: Option<Marks>,
}

/// What a worker held, and what stood in the tables where its finish put something else.
#[derive(Drop)]
pub struct Stood {
    pub held: Option<Held>,
    pub first: Option<Marks>,
    pub second: Option<Marks>,
}
