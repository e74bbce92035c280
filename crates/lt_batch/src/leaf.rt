//! What a leaf of a batch's circuit keeps.
ghost use Rattle.std.specs.Prelude.{◌≡◌, IfOk};

use lt_delta::Marks;
use lt_face::memory::NoMemory;
use lt_model::reply::Reply;
use lt_program::Tally;

/// The run of a program, and what of its correction was laid on the snapshot before it.
#[derive(Drop)]
pub struct LeafTally {
    pub run: Tally,
    pub on: Marks,
}

impl LeafTally {
    /// What the program answered.
    pub fn reply(&self) -> &Reply
        ensures { result.now ≡ self.now.run.reply }
    {
        self.run.reply()
    }

    /// The marks that it wrote, as an effect.
    pub(crate) fn effect(&self) -> &Marks
        ensures { result.now ≡ self.now.run.marks }
    {
        self.run.marks()
    }

    /// A second owner of the tally.
    pub(crate) fn share(&self) -> Result<LeafTally, NoMemory>
        ensures { IfOk result (λ same. same ≡ self.now) }
    {
        let run = self.run.share()?;
        let on = self.on.share()?;
        Ok(LeafTally { run, on })
    }
}
