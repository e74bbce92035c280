//! The circuit that repairs a batch, as a pure machine: jobs over a tree of leaves, the events that move them, and what a
//! worker alone gets done. After Veldhuizen, "Transaction Repair: Full Serializability Without Locks", 2014.
//!
//! The machine is jobs by their codes over cells (`specs/Net`), the tree as one such net (`Tree`), what every event keeps (`Kept`), and
//! how one worker settles (`Alone`). A line (`Line`) is one more such net: segments in a row, each such a tree, whose codes begin at 2048
//! times its number, and a Pass between two; `Row` puts its state together from those of the segments, `LineAlone` is how one worker
//! settles it. `before` and `then_all` take the marks that stand before the first leaf, so several trees in a row can hand `then_all` on.
//! A job goes by its name, and only `Codes` reckons with its code: `code_of` and how many codes there are (`codes_over`) in `specs`, their
//! laws in `proofs`, the functions in `job`.
#![tactic(auto)]

mod alone;
mod job;
mod laws;
mod line;
mod line_alone;

pub use alone::{alone_settles, each_round_one_leaf, sweep_settles_inner};
pub use job::{CODES, JobName, JobState, PASS, codes_over, nodes_over, with_kind};
pub use laws::{every_event_keeps, settled_is_serial};
pub use line::{
    every_event_of_line_keeps, front_is_final, line_of_one_is_circuit, row_is_line,
    settled_line_is_serial,
};
pub use line_alone::alone_settles_line;
