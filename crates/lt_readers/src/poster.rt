//! The poster.
ghost use Rattle.std.specs.Prelude.{◌≡◌, length, suc};
ghost use Rattle.lt_readers.specs.History.{head_of};

use crate::front::Front;
use crate::history::History;
use crate::pass::Desk;
use crate::version::Version;
use logbook::Word;
use std::alloc::Global;

mod desk;
mod posting;

pub use desk::{append, show};

/// Posts databases. It is ended by `close` alone.
pub struct Poster {
    pub(crate) alloc: Global,
    pub(crate) desk: Desk,
    /// What was posted.
    pub(crate) front: Front,
    /// How many versions were posted behind the first.
    pub(crate) posts: u64,
    pub(crate) head: Word<Version, u64, History>,
    pub(crate) ghost head_is: { head ≡ head_of front.seen.book },
    pub(crate) ghost one_history: { desk.desk.shown.value.seen.book ≡ front.seen.book },
    pub(crate) ghost counted: { length front.seen.log ≡ suc posts },
}
