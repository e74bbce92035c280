//! What stands between reading and running: the relations that are there, and the check of a program against them.
//!
//! A statement's terms are taken in text order, each once: `notes` numbers its variables and notes what is known of their kinds, `taken`
//! makes the normal form beside it. Where no kinds met that don't fit and nothing was left open (two terms compared while the kind of
//! neither was known) that is the whole check but for code 23 (`bound`). Else `statement` looks again for the first code: at the relations
//! and lengths (`columns`), and at the kinds, narrowed until nothing is learned (`kinds`). Read `specs/Taking`.
#![tactic(auto)]

mod bound;
pub mod check;
mod columns;
mod kinds;
mod names;
mod notes;
mod occurrences;
pub mod schema;
pub mod statement;
mod taken;

pub use statement::Desk;
