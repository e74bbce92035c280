//! Runs of scripts, of scripts by journals, and of benches: from bytes to the report, and why one isn't run to its end.
//!
//! `session` takes the items of a script as they come: where lines are asked for, batches that follow each other wait in it until one more
//! makes the line full, or something else comes. What items make is `lt_world`. `input` reads a script piece by piece into a `Feed`, and
//! `script` has each item run and written once it is there, and passes on what was written before it reads on; neither the script nor the
//! report is held as a whole. `front` reads the blocks before a script that is run by them, `replay` runs it, and `laws` says that what
//! a run with traces leaves is taken so. `stop` tells why a script
//! isn't run to its end, `status` how a call ends. Read `specs/Ends` first.
//!
//! `bench` runs the items of `lt_gen` on the same `World`, counts what each batch answered (`come`), and then gives up its version; where
//! readers are asked for, `beside` keeps the versions and posts each: `asking` has the readers ask, `posting` runs and posts the batches,
//! `comparing` compares the replies.
#![tactic(auto)]

pub mod bench;
mod beside;
mod come;
mod endings;
mod front;
pub mod generated;
mod input;
pub mod laws;
pub mod replay;
pub mod script;
mod session;
pub mod status;
pub mod stop;
