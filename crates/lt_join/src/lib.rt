//! The leapfrog triejoin: the answers of a body over a state, and what they were sensitive to.
//!
//! The files follow the walk: `way` (what a walk goes by), `atom_iter` (an atom's iterator, whose gaps go to the sense), `path` (the keys
//! of the levels above, which stand in clauses alone: at run time the values of the variables have them), `level` (a level is opened and
//! goes to its next key: the iterators of the atoms that hold it go one level down in place, each opened at the key of the one before, and
//! meet there; a level with a pin or a tie is opened at its one key, and is over at the first atom that lacks it), `walk` (the levels
//! below some keys; below the levels that decide the terms, `wanted`, it may end at an answer), `narrowing` (what conditions leave of a
//! level's keys, and whether one fails already; `hints` has where that is worth a look), `leaf`, `conditions` and `values` (what the keys
//! of all levels give), `looking_up` (negated atoms), `answer` (the rows, or the truth, for which no row is made: with a
//! sense, or alone), `covering` (what a sense is for), `slicing` (answers and senses key by key of the first variable, and what they make
//! together). The iterators of one or two atoms lie on the stack, so a join of these takes memory for its answers alone. A body by parts
//! (`splitting`, with a sense or without one, and key by key `splitting_slices`): `bounds` cuts the keys of the first level into ranges at
//! keys of one of its indexes, `parts` does the ranges by halves, each half in a thread of its own where there can be one, `ranging` walks
//! over one range, `slicing` gathers the slices of one, and neighbouring parts are put together: rows, slices and senses one behind the
//! other. `Parts` has what a part is. `slicing` answers a body key by key of its first variable (`noting` takes the gaps of the first
//! level), `sliced` keeps that: one sense for all keys, and the rows of each key (`key_rows`). `mending` says what slices stay on
//! another state (read `specs/Sliced`, then `specs/Mended`). `mending_touched` finds the touched keys, `mending_join` joins their slices
//! by a body and a plan that `mending_copy` pins to the key, and puts them in their places; `key_slice` is one such join, and of the first
//! level its sense has the key alone (`specs/OfKey`). `values` and `conditions` are public: the nested loops of `lt_reference` use them.
//! Of its specs read `Certify` (when a sense stands for the answers), `Cost` (the bound), `Explored` (what a walk has established),
//! `Level` (a level that is open), `Way` (what a walk leaves), `Sliced` (a body with a term pinned, its slices).
#![tactic(auto)]

mod answer;
mod atom_iter;
mod bounds;
pub mod conditions;
mod covering;
mod hints;
mod key_rows;
mod key_slice;
mod leaf;
mod level;
mod looking_up;
mod mending;
mod mending_copy;
mod mending_join;
mod mending_plan;
mod mending_touched;
mod narrowing;
mod noting;
mod parts;
mod path;
mod ranging;
mod sliced;
mod slicing;
mod splitting;
mod splitting_slices;
pub mod values;
mod walk;
mod wanted;
mod way;

pub use answer::{answers, answers_alone, some, some_alone};
pub use covering::agreeing_states_answer_alike;
use lt_face::items::RowList;
use lt_sense::{Sensed, Senses};
pub use mending::{mended_slices_are_slices, slices_stay};
pub use mending_join::mend;
pub use mending_plan::pinned_plans_are_plans;
pub use mending_touched::touched_keys;
pub use sliced::{Slices, rows_of_slices};
pub use slicing::{slices, slices_make_the_whole};
pub use splitting::{answers_split, answers_split_alone};
pub use splitting_slices::slices_split;

/// What a walk has found so far: what it sensed, and rows that are answers.
#[derive(Drop)]
pub struct Found<S: Senses> {
    pub sense: Sensed<S>,
    pub rows: RowList,
}
