//! What a seat tells.
ghost use Rattle.std.specs.Prelude.{◌≡◌, ◌<◌, ◌≤◌};
ghost use Rattle.lt_face.specs.Limits.{most_workers};
ghost use Rattle.lt_turn.specs.Seats.{view};

use super::{Seat, Token};
use crate::story::Story;

impl<T: Story> Seat<T> {
    pub(super) fn into_token(self) -> Token<T>
        ensures { result ≡ self.token }
    {
        let Self {
            token,
            first: _,
            end: _,
            left: _,
        } = self;
        token
    }

    pub fn first(&self) -> u32
        ensures first { result ≡ (view self.now).first }
        ensures few { result < most_workers }
    {
        self.first
    }

    pub fn end(&self) -> u32
        ensures end { result ≡ (view self.now).end }
        ensures later { (view self.now).first < result }
        ensures few { result ≤ most_workers }
    {
        self.end
    }
}
