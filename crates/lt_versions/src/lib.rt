//! Published databases by number.
//!
//! `published` is all of it: a list of databases, which share what they have in common.
#![tactic(auto)]

mod published;

pub use published::Versions;
