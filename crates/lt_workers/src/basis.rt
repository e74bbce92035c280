//! What workers settle something over.
use std::collections::LinkedList;

/// What a circuit is over: a work, and how many leaves. No value of it is made.
pub struct Basis<W> {
    pub work: W,
    pub leaves: u32,
}

/// What a line is over: a work, and how many leaves each segment has. No value of it is made.
pub struct LineBasis<W> {
    pub work: W,
    pub sizes: LinkedList<u32>,
}
