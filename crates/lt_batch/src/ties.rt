//! How dear a program's run was, and how it hangs on the programs before it. No clause speaks of it.
use crate::leaf::LeafTally;
use lt_delta::Marks;
use lt_face::memory::NoMemory;
use lt_model::mark::Mark;
use lt_model::normal::{Atom, Stmt};
use lt_program::{Found, Part, weight_of};
use lt_query::{Planned, body_of};
use std::alloc::Global;
use std::sync::Arc;

/// How many marks of a correction are looked up in a run's senses.
const LOOKS: usize = 8;

/// Relations by their numbers modulo 64: those that a program reads, and those that programs before it in the batch write.
#[derive(Clone, Copy)]
pub(crate) struct Ties {
    reads: u64,
    written: u64,
}

impl Ties {
    /// Whether no program before it writes what the program reads.
    pub(crate) fn is_free(self) -> bool {
        self.reads & self.written == 0
    }

    /// Whether the program reads a relation of this number, modulo 64.
    fn reads(self, relation: u32) -> bool {
        self.reads & bit(relation) != 0
    }
}

/// The bit of a relation of this number.
pub(crate) fn bit(relation: u32) -> u64 {
    1 << (relation % 64)
}

/// The relations that a list of atoms names.
fn named(atoms: &[Atom]) -> u64 {
    let mut mask = 0;
    for i in 0..atoms.len() {
        mask |= bit(atoms[i].relation);
    }
    mask
}

/// The relations that a statement writes.
fn written(stmt: &Stmt) -> u64 {
    match stmt {
        Stmt::Insert { head, .. } => bit(head.relation),
        Stmt::Delete { head, .. } => bit(head.relation),
        Stmt::Replace { gone, come, .. } => bit(gone.relation) | bit(come.relation),
        _reading => 0,
    }
}

/// The relation in which a statement's rows displace others.
fn displacing(stmt: &Stmt) -> u64 {
    match stmt {
        Stmt::Insert { head, keys, .. } if *keys as usize != head.terms.len() => bit(head.relation),
        Stmt::Replace { come, keys, .. } if *keys as usize != come.terms.len() => {
            bit(come.relation)
        }
        _plain => 0,
    }
}

/// The ties of each program of a batch.
pub(crate) fn ties_of(alloc: Global, progs: &[Arc<Planned>]) -> Result<Vec<Ties>, NoMemory> {
    let mut ties = Vec::with_capacity(alloc, progs.len())?;
    let mut before = 0;
    for prog in progs {
        let mut tie = Ties {
            reads: 0,
            written: before,
        };
        for stmt in prog.statements() {
            let body = body_of(stmt);
            tie.reads |= named(body.atoms.as_slice());
            tie.reads |= named(body.absents.as_slice()) | displacing(stmt);
            before |= written(stmt);
        }
        ties.push(tie)?;
    }
    Ok(ties)
}

/// Whether a statement found one row at most.
fn has_few(found: &Found) -> bool {
    match found {
        Found::Rows(rows) => rows.len() < 2,
        Found::Both(gone, _) => gone.len() < 2,
        _whole => true,
    }
}

/// Whether all of the part hangs on the mark's row. Of many rows that were found key by key only few do.
fn hangs_on(part: &Part, mark: &Mark) -> bool {
    let is_whole = part.slices().is_none() || has_few(part.outcome());
    is_whole && part.covers(mark.relation, &mark.row)
}

/// Whether all of the part hangs on some of the marks. Of those on relations that the program reads the last few are looked up.
fn hangs_on_some(part: &Part, ties: Ties, marks: &Marks) -> bool {
    let mut looks: usize = 0;
    for i in (0..marks.len()).rev() {
        let mark = marks.mark(i);
        if ties.reads(mark.relation) {
            if looks == LOOKS {
                return false;
            }
            looks = looks.saturating_add(1);
            if hangs_on(part, mark) {
                return true;
            }
        }
    }
    false
}

/// Whether most of the run hangs on its correction.
pub(crate) fn is_tied(ties: Ties, tally: &LeafTally) -> bool {
    let mut size: usize = 0;
    for shared in tally.run.parts() {
        let part = shared.part();
        if hangs_on_some(part, ties, &tally.on) {
            size = size.saturating_add(part.certificate().weight());
        }
    }
    size.saturating_mul(2) > weight_of(&tally.run)
}
