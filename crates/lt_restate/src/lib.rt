//! The run of a program on another state, by the tally of its run on an old one: only what a changed row touches is
//! evaluated again.
//!
//! `covered` finds the changed rows that a statement's part covers, among those that marks are on; `changed` looks a marked row up in
//! both states; `touched` tells the first of them and the keys that they touch. `restating` goes over the statements, `walk` is how
//! far it has come, `touch` what it tells. Read `specs/Touches` and `specs/Covered`; `specs/Walked` is the invariant.
#![tactic(auto)]

mod changed;
mod covered;
mod restating;
mod touch;
mod touched;
mod walk;

pub use restating::{restate, restate_marks};
pub use touch::{Spot, Touch, Touches};
