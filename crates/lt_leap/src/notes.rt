//! Where the gaps of moves are written down.
ghost use Rattle.std.specs.Prelude.{◌≡◌, ℕ, List, Option, None, IsOk, OnOk, OnErr};
ghost use Rattle.lt_face.specs.declared.key.Gap.{Gap};
ghost use Rattle.lt_leap.specs.Noted.{Gains};

use lt_face::key::Gap;
use lt_face::memory::NoMemory;

/// Takes the gaps that numbered iterators passed in their moves.
pub trait Notes {
    /// The gaps that it was given and kept, each with its iterator, where it tells them.
    ghost kept: { Self → Option (List (ℕ × Gap)) };

    /// Writes down a gap that the iterator `iter` passed. An empty gap may be left out; want of memory leaves the list.
    fn gap(&mut self, iter: u32, gap: Gap) -> Result<(), NoMemory>
        ensures ok { OnOk result (Gains (kept self.old) iter gap (kept self.new)) }
        ensures err { OnErr result (kept self.new ≡ kept self.old) };
}

/// Keeps nothing, and so takes no memory.
#[derive(Drop)]
pub struct NoNotes;

impl Notes for NoNotes {
    ghost kept = { λ _. None };

    fn gap(&mut self, _iter: u32, _gap: Gap) -> Result<(), NoMemory>
        ensures { IsOk result }
    {
        Ok(())
    }
}
