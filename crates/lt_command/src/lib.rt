//! The command line: the commands' definition, and what words ask for by it.
//!
//! `definition` is what the kit's parser of command lines is given, `words` what was asked for. Read `specs/Definition` and `Command`.
#![tactic(auto)]

mod definition;
mod words;

pub use words::{Command, command_of};
