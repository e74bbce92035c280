//! Cells: the keys that stand for ints and symbols, in the order of their values.
//!
//! `ints` and `symbols` go from values to cells and back, `sums` adds and takes away on cells, `text` is what a cell is written as, in 20
//! bytes at the most. `laws` says that cells compare as their values. Read `specs/Ints` and `Symbols`.
#![tactic(auto)]

mod ints;
mod laws;
mod sums;
mod symbols;
mod text;

pub use ints::{cell_of_int, int_of};
pub use laws::{ints_ascend, symbols_ascend, symbols_return};
pub use lt_face::key::Key;
pub use lt_model::kind::{Kind, KindList};
pub use lt_model::name::{Headings, Name};
pub use sums::{difference, sum};
pub use symbols::cell_of_sym;
pub use text::{CellText, cell_text};
