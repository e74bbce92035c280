//! Runs of programs one after another, each by plain loops.
ghost use Rattle.std.specs.Prelude.{map, IfOk, OnOk};
ghost use Rattle.std.specs.Arc.{arc_value};
ghost use Rattle.std.specs.List.{AllByRecursion};
ghost use Rattle.lt_run_trials.specs.Fitting.{AreRowsOfBoth, FitsBoth};

use crate::texts::program;
use lt_face::items::{Items, RowList};
use lt_face::memory::NoMemory;
use lt_model::normal::Stmt;
use lt_program::Ran;
use lt_query::Planned;
use lt_reference::{lay, run_plain};
use std::alloc::Global;
use std::sync::Arc;

/// What the programs of a batch do one after another, and the rows that they leave.
#[derive(Drop)]
pub(crate) struct Serial {
    pub runs: Vec<Ran>,
    pub relations: Vec<RowList>,
}

/// The two relations without rows.
pub(crate) fn no_rows(alloc: Global) -> Result<Vec<RowList>, NoMemory>
    ensures { IfOk result (λ relations. AreRowsOfBoth relations.items) }
{
    let mut relations = Vec::new(alloc);
    relations.push(Items::new(alloc))?;
    relations.push(Items::new(alloc))?;
    Ok(relations)
}

/// The run of a program, whose marks are laid on the relations.
pub(crate) fn one_run(
    alloc: Global,
    relations: &mut Vec<RowList>,
    prog: &[Stmt],
) -> Result<Ran, NoMemory>
    requires rows { AreRowsOfBoth relations.old.items }
    requires fits { FitsBoth prog.now }
    ensures { OnOk result (AreRowsOfBoth relations.new.items) }
{
    let (reply, marks) = run_plain(alloc, prog, relations)?;
    lay(relations, &marks)?;
    Ok(Ran { reply, marks })
}

/// The programs one after another on these relations, which they change.
fn runs_on(
    alloc: Global,
    relations: &mut Vec<RowList>,
    progs: &[Arc<Planned>],
) -> Result<Vec<Ran>, NoMemory>
    requires rows { AreRowsOfBoth relations.old.items }
    requires fit { AllByRecursion FitsBoth (map arc_value progs.now) }
    ensures { OnOk result (AreRowsOfBoth relations.new.items) }
{
    let mut runs = Vec::new(alloc);
    for prog in progs {
        let ran = one_run(alloc, relations, prog.statements())?;
        runs.push(ran)?;
    }
    Ok(runs)
}

/// The relations with the rows that these statements leave.
fn rows_of(alloc: Global, stock: &str) -> Result<Vec<RowList>, NoMemory>
    ensures { IfOk result (λ relations. AreRowsOfBoth relations.items) }
{
    let first = program(alloc, stock)?;
    let mut relations = no_rows(alloc)?;
    one_run(alloc, &mut relations, first.as_slice())?;
    Ok(relations)
}

/// The programs one after another, from the rows that these statements leave.
pub(crate) fn one_after_another(
    alloc: Global,
    stock: &str,
    progs: &[Arc<Planned>],
) -> Result<Serial, NoMemory>
    requires { AllByRecursion FitsBoth (map arc_value progs.now) }
{
    let mut relations = rows_of(alloc, stock)?;
    let runs = runs_on(alloc, &mut relations, progs)?;
    Ok(Serial { runs, relations })
}
