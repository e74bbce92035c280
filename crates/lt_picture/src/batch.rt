//! What is drawn of a batch.
ghost use Rattle.std.specs.Prelude.{◌≡◌, ◌<◌, ◌≤◌, length, All, count_by};
ghost use Rattle.lt_face.specs.Limits.{most_programs, most_workers};
ghost use Rattle.lt_picture.specs.Looks.{name_by};

use lt_circuit::JobName;

/// What came of a claim.
#[derive(Clone, Copy, PartialEq, Eq)]
pub enum Look {
    /// A program ran.
    Run,
    /// A program ran that had run before in its batch.
    Again,
    /// Two effects were merged.
    Merge,
    /// A correction was handed on.
    Correct,
    /// The job was given back.
    GivenBack,
}

/// A claim from its entry to that of its end, counted from 1.
#[derive(Clone, Copy)]
pub struct Bar {
    pub worker: u32,
    pub job: JobName,
    pub look: Look,
    pub from: u32,
    pub to: u32,
    ghost lane: { worker < most_workers },
}

/// A batch: its number, how many programs it has, how many entries its journal has, and the claims, in the order in which
/// they ended. Where the report told the names of its programs, they stand in order, else none does.
#[derive(Drop)]
pub struct Batch<'a> {
    pub number: u32,
    pub programs: u32,
    pub events: u32,
    pub bars: Vec<Bar>,
    pub names: Vec<&'a str>,
    ghost few: { programs ≤ most_programs },
    ghost named: { 0 < length names.items → length names.items ≡ programs },
}

impl<'a> Batch<'a> {
    /// How many claims came to this.
    pub fn count(&self, look: Look) -> usize
        ensures { result ≡ count_by (λ bar. ⟦<Look as PartialEq>⟧.eq bar.look look) self.now.bars.items }
    {
        self.bars.iter().filter(|bar| bar.look == look).count()
    }

    /// The name of the program that a job runs, where it runs one and the report told its name.
    pub fn name_of(&self, job: JobName) -> Option<&'a str>
        ensures { result ≡ name_by self.now.names.items job }
    {
        match job {
            JobName::Leaf(leaf) => self.names.get(leaf as usize).copied(),
            _ => None,
        }
    }

    /// How many lanes the workers need, one at least.
    pub fn lanes(&self) -> u32
        ensures some { 1 ≤ result }
        ensures few { result ≤ most_workers }
        ensures all { All (λ bar. bar.worker < result) self.now.bars.items }
    {
        let mut lanes = 1;
        for bar in &self.bars {
            lanes = (bar.worker + 1).max(lanes);
        }
        lanes
    }
}
