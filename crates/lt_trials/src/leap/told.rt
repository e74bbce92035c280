//! Notes that keep the gaps that they are given, as many as they have room for.
ghost use Rattle.std.specs.Prelude.{◌≡◌, [], Some};

use lt_face::{Gap, NoMemory};
use lt_leap::Notes;
use std::alloc::Global;

/// Gaps, each with its iterator.
#[derive(Drop)]
pub struct Told {
    pub gaps: Vec<(u32, Gap)>,
    pub room: usize,
}

impl Told {
    pub fn new(alloc: Global, room: usize) -> Told
        ensures { result.gaps.items ≡ [] }
    {
        Told {
            gaps: Vec::new(alloc),
            room,
        }
    }
}

impl Notes for Told {
    ghost kept = { λ told. Some told.gaps.items };

    fn gap(&mut self, iter: u32, gap: Gap) -> Result<(), NoMemory> {
        if self.gaps.len() == self.room {
            return Err(NoMemory);
        }
        self.gaps.push((iter, gap))?;
        Ok(())
    }
}
