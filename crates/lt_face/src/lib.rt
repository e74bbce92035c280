//! Keys, rows, and the traits that the layers above them share.
//!
//! Begin with `key` and `row`: a key is a cell as joins see it, a row is at most 8 cells. `row_set` says what a set of rows answers and
//! how it is edited (`RowReads`, `RowSet`), `near` where a search of it ended, `cutting` and `fraction` where it is cut, and `walk` goes
//! over the rows of any. `key_iter` is an iterator that a join moves, `moves` counts its moves, `indexes` is what a join reads. `items` is
//! the list type of all crates, seen as its elements, `memory` the one answer to want of memory, `limits` how much there may be. Read
//! `specs/Rows`, `State` and `Limits`.
#![tactic(auto)]

mod cells;
pub mod count;
mod cutting;
pub mod fraction;
pub mod indexes;
pub mod items;
pub mod key;
pub mod key_iter;
pub mod limits;
pub mod memory;
pub mod moves;
pub mod near;
pub mod row;
pub mod row_set;
pub mod walk;

pub use fraction::Fraction;
pub use indexes::Indexes;
pub use items::{Changes, Items, Perm, RowList};
pub use key::{CELL_LIMIT, END, Gap, Key};
pub use key_iter::KeyIter;
pub use memory::NoMemory;
pub use moves::Moves;
pub use near::Near;
pub use row::Row;
pub use row_set::{RowReads, RowSet};
pub use walk::{RowWalk, row_above};
