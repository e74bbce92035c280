//! What the workers hold.
#![tactic(auto)]

ghost use Rattle.std.specs.Prelude.{◌≡◌, ◌<◌, ◌≤◌, List, Option, Some, None, IfOk, slice_index_or, slice_set};
ghost use Rattle.lt_face.specs.Limits.{most_workers};
ghost use Rattle.lt_circuit.specs.declared.cells.Held.{Held as HeldType};
ghost use Rattle.lt_circuit.specs.Board.{one_if, standing, table};
ghost use Rattle.lt_circuit.specs.Holders.{AreHolders};

use crate::cells::Held;
use crate::jobs::Jobs;
use lt_face::NoMemory;
use lt_face::limits::MOST_WORKERS;
use lt_net::JobName;
use std::alloc::Global;
use std::marker::Model;
use std::mem;

/// The claims by their workers, and how many stand.
#[derive(Drop)]
pub struct Holders {
    claims: Vec<Option<Held>>,
    count: u32,
}

impl Model for Holders {
    ghost Value = { List (Option HeldType) };

    ghost view = { λ h. h.claims.items };

    ghost invariant = { λ h. AreHolders h.claims.items h.count };
}

/// As many Nones.
pub fn nones<T: Drop>(alloc: Global, n: usize) -> Result<Vec<Option<T>>, NoMemory>
    ensures { IfOk result (λ places. places.items ≡ table (λ _. None) n) }
{
    let mut places = Vec::with_capacity(alloc, n)?;
    for _place in 0..n {
        places.push(None)?;
    }
    Ok(places)
}

/// 1 where a claim stands.
fn one_if<T>(place: &Option<T>) -> u32
    ensures one { result ≡ one_if place.now }
    ensures most { result ≤ 1 }
{
    match place {
        Some(_held) => 1,
        None => 0,
    }
}

/// The code of a job of a tree, for any numbers. A Pass stands behind all jobs of its tree.
fn wide_code(job: JobName) -> usize {
    match job {
        JobName::Leaf(leaf) => 3 * leaf as usize,
        JobName::Merge(node) => 3 * node as usize + 1,
        JobName::Correct(node) => 3 * node as usize + 2,
        JobName::Pass(_segment) => usize::MAX,
    }
}

impl Holders {
    /// No worker holds a job.
    pub fn none(alloc: Global) -> Result<Holders, NoMemory>
        ensures { IfOk result (λ holders. holders ≡ table (λ _. None) most_workers) }
    {
        let claims = nones(alloc, MOST_WORKERS)?;
        Ok(Holders { claims, count: 0 })
    }

    /// How many claims stand.
    pub fn count(&self) -> u32
        ensures count { result ≡ standing self.now }
        ensures few { result ≤ most_workers }
    {
        self.count
    }

    /// Whether worker 0 holds a job.
    pub fn is_first_busy(&self) -> bool {
        self.claims.len() > 0 && self.claims[0].is_some()
    }

    /// The first place of the order at which a job is held, or one behind all.
    pub fn first_place(&self, jobs: &Jobs) -> usize {
        let mut first = usize::MAX;
        for worker in 0..self.claims.len() {
            if let Some(held) = &self.claims[worker] {
                let place = jobs.place(wide_code(held.job));
                if place < first {
                    first = place;
                }
            }
        }
        first
    }

    /// The worker holds the job.
    pub fn hold(&mut self, worker: u32, held: Held)
        requires { worker < most_workers }
        ensures { self.new ≡ slice_set self.old worker (Some held) }
    {
        let before = one_if(&self.claims[worker as usize]);
        self.count = self.count + 1 - before;
        self.claims[worker as usize] = Some(held);
    }

    /// The worker holds nothing any more. It answers what the worker held.
    pub fn free(&mut self, worker: u32) -> Option<Held>
        requires { worker < most_workers }
        ensures free { self.new ≡ slice_set self.old worker None }
        ensures held { result ≡ slice_index_or self.old worker None }
    {
        let before = one_if(&self.claims[worker as usize]);
        self.count -= before;
        mem::replace(&mut self.claims[worker as usize], None)
    }
}
