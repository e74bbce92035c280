//! Programs that come again with other constants: they take over the lists of one that was run, so nothing is allocated.
ghost use Rattle.std.specs.Prelude.{◌≡◌, ◌<◌, length, map, set, Some, None, slice_get, IfSome, IsTrue};
ghost use Rattle.std.specs.Arc.{arc_value};
ghost use Rattle.std.specs.List.{AllByRecursion};
ghost use Rattle.lt_model.specs.declared.syntax.Program.{Program as ProgramType};
ghost use Rattle.lt_model.specs.Check.{checked, code_of, Good as GoodProg, normal};
ghost use Rattle.lt_model.specs.Schema.{Schema as ModelSchema};
ghost use Rattle.lt_world.specs.Batches.{checked_of};
ghost use Rattle.lt_world.specs.Prepared.{AreChecked, IsOld};

use crate::batch::Judgement;
use crate::checks::{Old, Table};
use lt_check::schema::Schema;
use lt_model::form::{Kept, Wording};
use lt_model::syntax::{Program, ProgramList};
use lt_model::theorems::forms;
use lt_query::Planned;
use lt_query::laws::plans_of_forms;
use std::sync::Arc;

// How many programs are kept at most that were run, and how many of them are looked at for one.
const MOST_OLD: usize = 256;

const MOST_LOOKS: usize = 8;

// Whether both statements lie by forms that have one place. Then they are likely one form.
fn may_share(new: &Wording, old: &Wording) -> bool {
    match (new.kept(), old.kept()) {
        (Kept::Filled(new, _), Kept::Filled(old, _)) => new.place() == old.place(),
        _ => false,
    }
}

// Whether this is likely so of all their statements.
fn may_share_all(new: &Program, old: &Program) -> bool {
    let new = new.statements.as_slice();
    let old = old.statements.as_slice();
    if new.len() != old.len() {
        return false;
    }
    for i in 0..new.len() {
        if !may_share(&new[i], &old[i]) {
            return false;
        }
    }
    true
}

// Whether each statement has a form.
fn is_formed(program: &Program) -> bool {
    for wording in program.statements.as_slice() {
        match wording.kept() {
            Kept::Whole(_) => return false,
            Kept::Filled(..) => {}
        }
    }
    true
}

// Where a program stands, not far from the end, whose statements likely have the forms of this one's.
fn place_like(runs: &[Old], program: &Program) -> Option<usize>
    ensures { IfSome result (λ place. place < length runs.now) }
{
    for back in 1..=MOST_LOOKS.min(runs.len()) {
        let place = runs.len() - back;
        if may_share_all(program, &runs[place].program) {
            return Some(place);
        }
    }
    None
}

// Makes the statement at a place that of the new wording, where both have one form.
fn refill_by(
    table: &Table,
    schema: &Schema,
    planned: &mut Planned,
    place: usize,
    new: &Wording,
    old: &Wording,
) -> bool
    requires table { AreChecked schema.now table.now }
    requires stmt { slice_get planned.old place ≡ Some (normal schema.now old.now) }
    ensures code { IsTrue result → code_of schema.now new.now ≡ None }
    ensures filled { IsTrue result → planned.new ≡ set planned.old place (normal schema.now new.now) }
{
    forms();
    plans_of_forms();
    let (Kept::Filled(form, cells), Kept::Filled(of_old, _)) = (new.kept(), old.kept()) else {
        return false;
    };
    let Some(checked) = table.find(form) else {
        return false;
    };
    if !form.is_same(of_old) {
        return false;
    }
    planned.refill_at(place, &checked.stmt, &checked.plan, cells.as_slice())
}

// Makes the program of the old one's normal form that of the new one, where their statements have the same forms one by one.
fn refill_all(
    table: &Table,
    schema: &Schema,
    planned: &mut Planned,
    new: &Program,
    old: &Program,
) -> bool
    requires table { AreChecked schema.now table.now }
    requires old { checked old.now schema.now ≡ GoodProg planned.old }
    ensures { IsTrue result → checked new.now schema.now ≡ GoodProg planned.new }
{
    let new = new.statements.as_slice();
    let old = old.statements.as_slice();
    if new.len() != old.len() {
        return false;
    }
    for i in 0..new.len() {
        if !refill_by(table, schema, planned, i, &new[i], &old[i]) {
            return false;
        }
    }
    true
}

// The new program in the lists of the old one, where its statements have the same forms and nobody else has a hold of these.
fn renewed(table: &Table, schema: &Schema, program: &Program, old: Old) -> Option<Arc<Planned>>
    requires table { AreChecked schema.now table.now }
    requires old { IsOld schema.now old }
    ensures { IfSome result (λ planned. checked program.now schema.now ≡ GoodProg (arc_value planned)) }
{
    let Old {
        program: before,
        mut planned,
    } = old;
    let Some(lists) = Arc::get_mut(&mut planned) else {
        return None;
    };
    if refill_all(table, schema, lists, program, &before) {
        return Some(planned);
    }
    None
}

/// The program in normal form, in the lists of one that was run, where there is one whose statements have the same forms. Where
/// none is at hand, one of those makes room for others.
pub fn reused(table: &mut Table, schema: &Schema, program: &Program) -> Option<Arc<Planned>>
    requires { AreChecked schema.now table.old }
    ensures good { IfSome result (λ planned. checked program.now schema.now ≡ GoodProg (arc_value planned)) }
    ensures table { AreChecked schema.now table.new }
{
    let Some(place) = place_like(&table.runs, program) else {
        table.runs.pop();
        return None;
    };
    let old = table.runs.swap_remove(place);
    renewed(table, schema, program, old)
}

// Keeps a program that was run, where each of its statements has a form, and there is room.
fn keep_old(runs: &mut Vec<Old>, program: Program, judgement: Judgement)
    ensures { (schema : ModelSchema) → checked_of judgement ≡ checked program schema → AllByRecursion (IsOld schema) runs.old.items → AllByRecursion (IsOld schema) runs.new.items }
{
    let Judgement::Good(planned) = judgement else {
        return;
    };
    if runs.len() < MOST_OLD && is_formed(&program) {
        let _kept = runs.push(Old { program, planned });
    }
}

/// Keeps programs that were run, with what the check of each gave, for others to come: the first of them is looked at first. Where
/// memory is short they are let go.
pub fn retire(table: &mut Table, programs: ProgramList, judgements: Vec<Judgement>)
    ensures { (schema : ModelSchema) → map checked_of judgements.items ≡ map (λ (p : ProgramType). checked p schema) programs → AreChecked schema table.old → AreChecked schema table.new }
{
    let mut left = programs.into_vec();
    let mut checks = judgements;
    for _ in 0..left.len() {
        let Some(program) = left.pop() else {
            return;
        };
        let Some(judgement) = checks.pop() else {
            return;
        };
        keep_old(&mut table.runs, program, judgement);
    }
}
