//! Readers beside a poster: queries are answered while a batch runs, on a posted database that is never older than one their reader has seen.
//!
//! A board is a poster and up to eight readers, each for a thread of its own. What was posted is one history, which exists in proofs alone
//! (`history`, a word of `logbook` whose value is the number of posts). A `front` is a beginning of it that someone has seen, with a share
//! of its last version; the poster, each reader, each `Told` and both copies of `left_right` hold one. The rule of the two copies (`pass`)
//! says one thing, of which history they tell. So what a reader finds there brings its own list along, and of two fronts the one with the
//! lesser number begins the other. A reader holds the copy only while it makes one more owner of the version; its query then runs on that.
#![tactic(auto)]

mod answering;
mod board;
mod front;
mod history;
mod pass;
mod poster;
mod reader;
mod told;
mod version;

pub use answering::answered;
pub use board::Board;
pub use front::Front;
pub use history::History;
pub use poster::Poster;
pub use reader::Reader;
pub use told::Told;
pub use version::Version;
