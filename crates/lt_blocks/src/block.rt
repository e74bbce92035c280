//! A batch's journal, as it is written down.
use lt_batch::Journal;

/// The number of a batch, how many of its programs have no code, and the journal of the circuit that ran them.
#[derive(Drop)]
pub struct Block {
    pub number: u64,
    pub programs: u32,
    pub entries: Journal,
}
