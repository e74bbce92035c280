//! The run of a program, computed as it is defined.
ghost use Rattle.std.specs.Prelude.{◌≡◌, ◌≤◌, length, IfOk};
ghost use Rattle.std.specs.List.{AllByRecursion};
ghost use Rattle.lt_face.specs.Limits.{most_statements};
ghost use Rattle.lt_face.specs.State.{State};
ghost use Rattle.lt_model.specs.Fits.{FitMarks};
ghost use Rattle.lt_model.specs.Laws.{Rises};
ghost use Rattle.lt_model.specs.Run.{run};
ghost use Rattle.lt_program.specs.Run.{AreReplied};
ghost use Rattle.lt_reference.specs.Ready.{IsReady};
ghost use Rattle.lt_reference.specs.Run.{IsFitting, lists};
ghost use Rattle.lt_reference.specs.Walk.{AreCells, bare};

use crate::effects::effect_on;
use crate::progress::Progress;
use lt_delta::Marks;
use lt_face::items::{Items, RowList};
use lt_face::memory::NoMemory;
use lt_model::normal::Stmt;
use lt_model::reply::Reply;
use lt_program::copied;
use std::alloc::Global;

/// Equal lists of rows.
fn all_copied(alloc: Global, relations: &[RowList]) -> Result<Vec<RowList>, NoMemory>
    ensures { IfOk result (λ copies. copies.items ≡ relations.now) }
{
    let mut copies = Vec::new(alloc);
    for rows in relations {
        let copy = copied(alloc, rows.as_slice())?;
        copies.push(copy)?;
    }
    Ok(copies)
}

/// The run of a program on relations that it may change.
fn run_on(alloc: Global, prog: &[Stmt], relations: Vec<RowList>) -> Result<(Reply, Marks), NoMemory>
    requires few { length prog.now ≤ most_statements }
    requires ready { AllByRecursion IsReady prog.now }
    requires rises { Rises (bare relations.items) }
    requires cells { AreCells relations.items }
    ensures reply { IfOk result (λ out. out.0 ≡ (run prog.now (bare relations.items)).0) }
    ensures marks { IfOk result (λ out. out.1 ≡ (run prog.now (bare relations.items)).1) }
{
    let mut progress = Progress {
        relations,
        marks: Marks::empty(alloc)?,
        prints: Items::new(alloc),
    };
    for (i, stmt) in prog.iter().enumerate() {
        let number = i as u32 + 1;
        let effect = effect_on(alloc, &progress.relations, stmt)?;
        let met = progress.accept(number, effect)?;
        if !met {
            let none = Marks::empty(alloc)?;
            return Ok((Reply::Refused(number), none));
        }
    }
    let Progress {
        relations: _,
        marks,
        prints,
    } = progress;
    Ok((Reply::Done(prints), marks))
}

/// The reply of a program on relations with these rows, and its marks.
pub fn run_plain(alloc: Global, prog: &[Stmt], rows: &[RowList]) -> Result<(Reply, Marks), NoMemory>
    requires { IsFitting rows.now prog.now }
    ensures reply { IfOk result (λ out. (state : State) → lists state ≡ rows.now → out.0 ≡ (run prog.now state).0) }
    ensures marks { IfOk result (λ out. (state : State) → lists state ≡ rows.now → out.1 ≡ (run prog.now state).1) }
    ensures fits { IfOk result (λ out. (fitting : IsFitting rows.now prog.now) → FitMarks fitting.state out.1) }
    ensures printed { IfOk result (λ out. AreReplied out.0) }
{
    let relations = all_copied(alloc, rows)?;
    let out = run_on(alloc, prog, relations)?;
    Ok(out)
}
