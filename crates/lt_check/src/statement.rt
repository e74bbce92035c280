//! The check of one statement.
ghost use Rattle.std.specs.Prelude.{◌≡◌, if◌then◌else◌, IfOk, IfErr, Some, None, length};
ghost use Rattle.std.specs.List.{list_all};
ghost use Rattle.lt_model.specs.Bound.{is_bound};
ghost use Rattle.lt_model.specs.Check.{choice_fits, code_of, normal};
ghost use Rattle.lt_model.specs.Variables as model;
ghost use Rattle.lt_model.specs.Variables.{variables, place_of};
ghost use Rattle.lt_model.specs.Limits.{IsStatementWithin};
ghost use Rattle.lt_check.specs.Narrowing.{Settles};
ghost use Rattle.lt_check.specs.Outcome.{IsCode};
ghost use Rattle.lt_check.specs.Seen.{seen, HasColumns};
ghost use Rattle.lt_check.specs.Taking.{IsTaken, IsFormed};

use crate::bound::Bound;
use crate::check::CheckFault;
use crate::columns::{has_misfit, list_columns};
use crate::kinds::settle;
use crate::names::Names;
use crate::notes::Notes;
use crate::occurrences::{body_of, list_atoms};
use crate::schema::Schema;
use crate::taken::{joined, take_body, take_front};
use lt_face::memory::NoMemory;
use lt_model::kind::Kind;
use lt_model::normal::{Body, Stmt};
use lt_model::syntax::{Head, Statement};
use std::alloc::Global;

fn bad(code: u32, statement: u32) -> Result<Stmt, CheckFault>
    ensures { result ≡ Err (CheckFault.Bad code statement) }
{
    Err(CheckFault::Bad { code, statement })
}

// Finds kinds by which the statement's conditions fit. Only where something was left open is each condition looked at again.
fn settle_kinds(
    notes: &mut Notes,
    schema: &Schema,
    atoms: &[&Head],
    columns: &[&[Kind]],
    statement: &Statement,
) -> Result<bool, NoMemory>
    requires columns { HasColumns schema.now (seen atoms.now) (seen columns.now) }
    requires names { notes.now.names ≡ variables statement.now }
    requires atoms { seen atoms.now ≡ model.atoms_of statement.now }
    requires taken { IsTaken (choice_fits schema.now statement.now) notes.now }
    ensures found { IfOk result (λ found. Settles (choice_fits schema.now statement.now) (length notes.old.names) (if found then Some notes.new.known else None)) }
    ensures names { notes.new.names ≡ notes.old.names }
{
    if notes.conflict {
        return Ok(false);
    }
    let found = settle(
        &mut notes.known,
        schema,
        &notes.names,
        atoms,
        columns,
        body_of(statement),
    )?;
    Ok(found)
}

// Whether the body binds each of these variables.
#[tactic(auto, using(crate::proofs::Binding::all_alike))]
fn binds(alloc: Global, body: &Body, names: &Names) -> Result<bool, NoMemory>
    ensures { IfOk result (λ all. all ≡ list_all (λ name. is_bound body.now (place_of names.now name)) names.now) }
{
    let bound = Bound::by(alloc, body)?;
    Ok(bound.has_all(names))
}

/// Lists for the check of one statement after another. They keep their room.
#[derive(Drop)]
pub struct Desk<'a> {
    atoms: Vec<&'a Head>,
    columns: Vec<&'a [Kind]>,
    notes: Notes<'a>,
}

impl<'a> Desk<'a> {
    /// Empty lists.
    pub fn new(alloc: Global) -> Desk<'a> {
        Desk {
            atoms: Vec::new(alloc),
            columns: Vec::new(alloc),
            notes: Notes::new(alloc),
        }
    }
}

fn refused(code: u32, statement: u32) -> Result<(), CheckFault>
    ensures { result ≡ Err (CheckFault.Bad code statement) }
{
    Err(CheckFault::Bad { code, statement })
}

impl<'a> Desk<'a> {
    // Looks again at a statement in which there is a conflict, or something was left open.
    fn look_again(
        &mut self,
        schema: &'a Schema,
        statement: &'a Statement,
        number: u32,
    ) -> Result<(), CheckFault>
        requires names { self.now.notes.names ≡ variables statement.now }
        requires taken { IsTaken (choice_fits schema.now statement.now) self.now.notes }
        ensures formed { IfOk result (λ _. IsFormed schema.now statement.now) }
        ensures kinds { IfOk result (λ _. Settles (choice_fits schema.now statement.now) (length (variables statement.now)) (Some self.new.notes.known)) }
        ensures names { IfOk result (λ _. self.new.notes.names ≡ self.old.notes.names) }
        ensures bad { IfErr result (λ fault. IsCode (code_of schema.now statement.now) number fault) }
    {
        list_atoms(&mut self.atoms, statement)?;
        let known = list_columns(&mut self.columns, schema, &self.atoms)?;
        if !known {
            return refused(20, number);
        }
        if has_misfit(schema, &self.atoms, &self.columns) {
            return refused(21, number);
        }
        let has_kinds = settle_kinds(
            &mut self.notes,
            schema,
            &self.atoms,
            &self.columns,
            statement,
        )?;
        if !has_kinds {
            return refused(22, number);
        }
        Ok(())
    }

    // Whether the relations and the kinds of a statement whose terms were taken fit.
    fn look(
        &mut self,
        schema: &'a Schema,
        statement: &'a Statement,
        number: u32,
    ) -> Result<(), CheckFault>
        requires within { IsStatementWithin statement.now }
        requires names { self.now.notes.names ≡ variables statement.now }
        requires taken { IsTaken (choice_fits schema.now statement.now) self.now.notes }
        ensures formed { IfOk result (λ _. IsFormed schema.now statement.now) }
        ensures kinds { IfOk result (λ _. Settles (choice_fits schema.now statement.now) (length (variables statement.now)) (Some self.new.notes.known)) }
        ensures names { IfOk result (λ _. self.new.notes.names ≡ self.old.notes.names) }
        ensures bad { IfErr result (λ fault. IsCode (code_of schema.now statement.now) number fault) }
    {
        if self.notes.is_clear() {
            return Ok(());
        }
        self.look_again(schema, statement, number)
    }
}

/// The normal form of the statement of this number, or its first code.
pub fn check_statement<'a>(
    alloc: Global,
    schema: &'a Schema,
    statement: &'a Statement,
    number: u32,
    desk: &mut Desk<'a>,
) -> Result<Stmt, CheckFault>
    requires { IsStatementWithin statement.now }
    ensures good { IfOk result (λ stmt. (code_of schema.now statement.now ≡ None) × (stmt ≡ normal schema.now statement.now)) }
    ensures bad { IfErr result (λ fault. IsCode (code_of schema.now statement.now) number fault) }
{
    desk.notes.clear();
    let front = take_front(alloc, schema, &mut desk.notes, statement)?;
    let body = take_body(alloc, schema, &mut desk.notes, body_of(statement))?;
    desk.look(schema, statement, number)?;
    let bound = binds(alloc, &body, &desk.notes.names)?;
    if !bound {
        return bad(23, number);
    }
    let stmt = joined(alloc, &desk.notes, front, statement, body)?;
    Ok(stmt)
}
