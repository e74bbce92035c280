//! What the poster and each reader know of the two copies: of which history they tell.
ghost use Rattle.std.specs.Prelude.{◌≡◌, IfSome};
ghost use Rattle.left_right.specs.Sides.{view};
ghost use Rattle.lt_readers.specs.Passes.{Tells};

use crate::front::Front;
use crate::history::History;
use crate::version::Version;
use atomic_table::{Join, Split};
use crossbeam_utils::rule::{Outcome, Protocol};
use left_right::{reader, writer};
use logbook::Seen;

/// No value of it is made.
pub struct View {
    pub of: Option<Seen<Version, u64, History>>,
}

/// All that know it know the same history, and the copies tell of it.
pub struct OneHistory;

impl Protocol<Front, View> for OneHistory {
    ghost use Rattle.lt_readers.specs.Passes.{Kept, unknowing};

    ghost holds = { Kept };

    ghost first = { unknowing };
}

/// The copies tell of the history that is known.
pub struct Meets;

impl Outcome<Front, View> for Meets {
    ghost use Rattle.lt_readers.specs.Passes.{Met};

    ghost then = { Met };
}

/// What is shown tells of the history that was told of before.
pub struct Shows;

impl Outcome<Front, View> for Shows {
    ghost use Rattle.lt_readers.specs.Passes.{Shown};

    ghost then = { Shown };
}

/// The poster tells a reader of which history the copies tell.
pub struct Names;

impl Split<View> for Names {
    ghost left = { λ v. v };

    ghost right = { λ v. v };
}

impl Join<View> for Names {
    ghost use Rattle.lt_readers.specs.Passes.{unknowing};

    ghost both = { λ v w. w };

    ghost spent = { unknowing };
}

pub type Desk = writer::Writer<Front, Front, View, OneHistory>;

pub type Pass = reader::Reader<Front, View, OneHistory>;

/// Takes a share of what is shown. The reader may not be let in, or the share may be refused.
pub fn met(pass: Pass) -> (Pass, Option<Front>)
    ensures view { view result.0.place ≡ view pass.place }
    ensures front { IfSome result.1 (λ front. Tells (view pass.place) front.seen.book) }
{
    match pass.enter_as::<Meets>() {
        Ok(reading) => {
            let front = reading.get().again();
            (reading.leave(), front.ok())
        }
        Err(pass) => (pass, None),
    }
}
