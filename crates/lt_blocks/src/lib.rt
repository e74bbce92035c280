//! The blocks of a trace: the journals of a script's batches, as they are written, and as they are read from bytes that come in
//! pieces.
//!
//! `block` is a batch's journal as it is written down, `writing` writes it, and `reader` reads blocks from bytes in pieces, line by line
//! (`words`). Read `specs/Blocks`.
#![tactic(auto)]

mod block;
mod reader;
mod words;
mod writing;

pub use block::Block;
pub use reader::{Reader, Stage};
pub use writing::put_blocks;
