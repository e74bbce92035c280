//! A set of rows as three levels of lists that versions share.
//!
//! Page and node are one type (`level`), since a list of entries does the same whatever its entries are: `entry` says what it asks of each
//! (`Entry`), and of a list that is edited (`Listed`). A row is the least entry, and `rows` edits a page. `search` finds the entry where a
//! row lies, `edit` edits a list of levels, `copies` makes a list anew with entries put in or left out, as one list or as two, and `root`
//! is the list of nodes, which alone may be empty. An entry that gets one too many stays as it was and answers the two that are to stand
//! in its place, so nothing is taken back where memory is refused. A page that versions share is cut at 25 rows, where it is copied: later
//! versions then copy one half. `building` makes levels of sorted rows. A level has no invariant but its length: that rows ascend is known
//! at the root, and a `requires` below it. A row about so far along (`row_about`) is met from the root down: each list gives its part, and
//! hands on what was rounded off.
#![tactic(auto)]

mod building;
mod copies;
mod edit;
mod entry;
mod level;
mod root;
mod rows;
mod search;
mod shared_rows;

pub use shared_rows::SharedRows;
