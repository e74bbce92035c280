//! What an evaluation was sensitive to: gaps between keys that its moves passed, and rows that it met.
//!
//! A join hands each of them to a `Senses` (`senses`; `keys_at` has rows by the keys of a walk's levels): `Gathering` keeps them, `no_sense`
//! keeps nothing and takes no bytes. Clauses see gaps and hits (`covering`, `specs/Kept`); `specs/Sense` says which rows these cover.
//! At run time there are ranges of rows: under a prefix of cells all rows, met or absent, whose next cell lies from one key to below
//! another (`specs/Spans`). `spans` has those of one index as a walk gathers them, `gathering` a list for each index, `met` puts rows
//! that were met among them, `adding` those of another gathering. `specs/Gathered`: they have just the rows that are covered.
//! `Gathering::seal` makes a `Sense` (`sense`): the ranges of an index stand in the order of rows (`specs/Apart`; mostly they were
//! gathered so, else `sorting` puts them so), and `halves` looks a row up among them. `specs/Held` says how many ranges there are.
//! `GatheringByKey` (`by_key`) and `SenseByKey` (`by_key_sense`) are the same of an evaluation key by key of its first variable (`specs/ByKey`):
//! an index whose columns begin with that variable has one list for all keys (`by_key_lists`), in which a row's first cell is its key;
//! the other ranges of a key's part stand by the key (`by_key_rest`; `by_key_taking` tells which, `specs/ByKeyTold` what they say together).
//! `by_key_cut` leaves keys out, and `by_key_seen` is what clauses see, without bytes.
#![tactic(auto)]

mod adding;
mod by_key;
mod by_key_cut;
mod by_key_lists;
mod by_key_rest;
mod by_key_seen;
mod by_key_sense;
mod by_key_taking;
mod covering;
mod gathering;
mod halves;
mod keys_at;
mod met;
mod no_sense;
mod pieces;
mod sense;
mod senses;
mod sorting;
mod spans;

pub use by_key::GatheringByKey;
pub use by_key_sense::SenseByKey;
pub use covering::{Hit, KeptGap};
pub use gathering::Gathering;
pub use keys_at::{KeysAt, row_of};
pub use lt_face::items::Changes;
pub use no_sense::NoSense;
pub use sense::Sense;
pub use senses::{Sensed, Senses};
