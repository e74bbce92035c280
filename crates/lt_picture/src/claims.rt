//! The claims that stand while a journal is gone through.
ghost use Rattle.std.specs.Prelude.{◌≡◌, ◌≢◌, ◌↔◌, [], ◌∷◌, ◌++◌, length, true, IsTrue, All, Contains, IfSome, IfNone, IfOk, OnOk};
ghost use Rattle.std.specs.Ordering.{nat_cmp};
ghost use Rattle.std.specs.BTreeSet.{contains};
ghost use Rattle.lt_picture.specs.Looks.{look_by, run_look};

use crate::batch::Look;
use crate::refusal::Flaw;
use lt_circuit::{Entry, Event, JobName};
use std::alloc::{AllocError, Global};
use std::collections::BTreeSet;

/// A claim that stands, and the number of its entry.
#[derive(Clone, Copy)]
pub struct Claim {
    pub worker: u32,
    pub job: JobName,
    pub at: u32,
}

/// The claims that stand, and the programs that have run.
#[derive(Drop)]
pub struct Claims {
    standing: Vec<Claim>,
    ran: BTreeSet<u32>,
}

impl Claims {
    /// No claim stands, and no program has run.
    pub fn new(alloc: Global) -> Claims {
        Claims {
            standing: Vec::new(alloc),
            ran: BTreeSet::new(alloc),
        }
    }

    /// Whether no claim stands.
    pub fn is_empty(&self) -> bool
        ensures { IsTrue result ↔ (length self.now.standing.items ≡ 0) }
    {
        self.standing.is_empty()
    }

    /// What is wrong with this claim, if anything is.
    pub fn flaw_of(&self, entry: &Entry) -> Option<Flaw>
        ensures worker { IfNone result (All (λ claim. claim.worker ≢ entry.now.worker) self.now.standing.items) }
        ensures job { IfNone result (All (λ claim. claim.job ≢ entry.now.job) self.now.standing.items) }
    {
        let standing = &self.standing;
        if standing.iter().any(|claim| claim.worker == entry.worker) {
            Some(Flaw::Busy)
        } else if standing.iter().any(|claim| claim.job == entry.job) {
            Some(Flaw::Taken)
        } else {
            None
        }
    }

    /// Keeps a claim, and the number of its entry.
    pub fn begin(&mut self, entry: &Entry, at: u32) -> Result<(), AllocError>
        ensures { OnOk result (self.new.standing.items ≡ self.old.standing.items ++ record { worker = entry.now.worker; job = entry.now.job; at = at } ∷ []) }
    {
        let claim = Claim {
            worker: entry.worker,
            job: entry.job,
            at,
        };
        self.standing.push(claim)?;
        Ok(())
    }

    /// Ends the claim of this job by this worker, where it stands, and gives it.
    pub fn end(&mut self, entry: &Entry) -> Option<Claim>
        ensures worker { IfSome result (λ claim. claim.worker ≡ entry.now.worker) }
        ensures job { IfSome result (λ claim. claim.job ≡ entry.now.job) }
        ensures stood { IfSome result (Contains self.old.standing.items) }
    {
        let place = self.standing.iter().position(|claim| claim.worker == entry.worker
            && claim.job == entry.job)?;
        let claim = self.standing.swap_remove(place);
        Some(claim)
    }

    /// What came of a job whose claim ends with this entry.
    pub fn look_of(&mut self, entry: &Entry) -> Result<Look, AllocError> {
        look_of(&mut self.ran, entry.job, entry.event)
    }
}

// What came of a job whose claim ended so, where `ran` has the programs that ran before. One that runs comes to them.
fn look_of(ran: &mut BTreeSet<u32>, job: JobName, event: Event) -> Result<Look, AllocError>
    ensures { IfOk result (λ look. look ≡ look_by (contains nat_cmp ran.old) job event) }
{
    match event {
        Event::Abandon => Ok(Look::GivenBack),
        _ => match job {
            JobName::Leaf(leaf) => run_of(ran, leaf),
            JobName::Merge(_) => Ok(Look::Merge),
            JobName::Correct(_) => Ok(Look::Correct),
            JobName::Pass(_) => Ok(Look::Correct),
        },
    }
}

// Notes that a program ran, and tells whether it had before.
fn run_of(ran: &mut BTreeSet<u32>, program: u32) -> Result<Look, AllocError>
    ensures look { IfOk result (λ look. look ≡ run_look (contains nat_cmp ran.old program)) }
    ensures noted { OnOk result (contains nat_cmp ran.new program ≡ true) }
{
    let is_first = ran.insert(program)?;
    if is_first {
        Ok(Look::Run)
    } else {
        Ok(Look::Again)
    }
}
