//! What the items of a script make: relations, a database, and its versions.
//!
//! `world` takes an item, `batch` writes what the programs of a batch answered. `line` runs batches that follow each other as one:
//! `publishing` makes each batch's version when it is handed what the batch wrote, and a batch alone is run in order. That a line leaves
//! what its batches leave one after another is said of the fold over items (`proofs/Lined`), so what is proved of a report doesn't know of
//! lines. `tracing` runs batches by circuits where traces are asked for, and keeps their journals, eight bytes an entry; `replaying` runs
//! them by journals that were written down.
//!
//! `prepared` is the schema, and is seen as that; with it lies what was checked by it (`checks`: forms, and programs that were run).
//! `judging` checks the programs of a batch, `reusing` by the lists of one that was run, `making` statement by statement. A form is
//! checked once, and none of it is kept over a declaration. Read `specs/World`, `specs/Prepared` and `specs/Lines`.
#![tactic(auto)]

pub mod batch;
pub mod checks;
pub mod halt;
pub mod judging;
pub mod laws;
mod line;
mod making;
pub mod options;
pub mod prepared;
mod publishing;
pub mod replaying;
mod reusing;
pub mod tracing;
pub mod world;
