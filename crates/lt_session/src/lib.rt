//! The top call: from the words to what runs, and from how it ended to the status.
//!
//! `repair_main` reads the words by `lt_command`, and has a script, a script by journals, or a bench run by `lt_runs`, or writes the usage
//! line. `specs/CommandEnds` says in one definition, over all commands, how a call ends; what `repair_main` promises of each status follows
//! from it (`proofs/CommandEnds`).
#![tactic(auto)]

mod repair;

pub use repair::repair_main;
