//! What is heard of a script: its items are answered once their text is there, up to a fault, which is told and costs one item.
//!
//! `hearing` takes the items from the feed, and has them answered by `answers` as at a pipe, or by `talking` with words (`reasons`). What
//! is written at a pipe is proved: read `specs/Answered`.
#![tactic(auto)]

pub mod answers;
pub mod hearing;
mod reasons;
mod talking;
