//! The relations that are there, with what was checked by them.
ghost use Rattle.std.specs.Prelude.{◌≡◌, ◌≤◌, ◌<◌, ◌↔◌, ◌++◌, ◌∷◌, [], length, map, None, IfOk, OnOk, OnErr, IsErrOf, IsSome};
ghost use Rattle.std.specs.List.{AllByRecursion};
ghost use Rattle.lt_face.specs.Limits.{most_relations};
ghost use Rattle.lt_face.specs.State.{State};
ghost use Rattle.lt_model.specs.declared.syntax.Program.{Program as ProgramType};
ghost use Rattle.lt_model.specs.Check.{checked};
ghost use Rattle.lt_model.specs.Limits.{IsProgramWithin};
ghost use Rattle.lt_model.specs.Schema.{number_of, columns_of, keys_of};
ghost use Rattle.lt_check.specs.States.{HaveKeyColumns, IsStateOf};
ghost use Rattle.lt_world.specs.Batches.{checked_of, FitsIfGood};

use crate::batch::Judgement;
use crate::checks::Table;
use crate::judging::judged_by;
use crate::reusing::retire;
use lt_check::schema::{DeclareFault, Schema};
use lt_face::NoMemory;
use lt_model::kind::{Kind, KindList};
use lt_model::name::{Headings, Name};
use lt_model::syntax::{Program, ProgramList};
use std::alloc::Global;
use std::marker::Model;

/// The relations that are there. What was checked by them is kept: statements that come again with other constants are checked and
/// planned once.
#[derive(Drop)]
pub struct Prepared {
    schema: Schema,
    table: Table,
}

impl Model for Prepared {
    ghost use Rattle.lt_model.specs.Schema as model;
    ghost use Rattle.lt_world.specs.Prepared.{AreChecked};

    ghost Value = { model.Schema };

    ghost view = { λ p. p.schema };

    ghost invariant = { λ p. AreChecked p.schema p.table };
}

impl Prepared {
    /// No relations.
    pub fn new(alloc: Global) -> Prepared
        ensures { result ≡ [] }
    {
        Prepared {
            schema: Schema::new(alloc),
            table: Table::new(alloc),
        }
    }

    /// The relations alone.
    pub fn schema(&self) -> &Schema
        ensures { result.now ≡ self.now }
    {
        &self.schema
    }

    /// The number of the relation of this name.
    pub fn find(&self, name: &Name) -> Option<u32>
        ensures { result ≡ number_of self.now name.now }
    {
        self.schema.find(name)
    }

    /// The name of each relation with the kinds of its columns, and how many of these are key columns.
    pub fn headings(&self) -> &Headings
        ensures headings { result.now ≡ self.now }
        ensures bound { length self.now ≤ most_relations }
        ensures keyed { HaveKeyColumns self.now }
    {
        self.schema.headings()
    }

    /// The kinds of a relation's columns, none where it isn't there.
    pub fn columns(&self, name: &Name) -> &[Kind]
        ensures { result.now ≡ columns_of self.now name.now }
    {
        self.schema.columns(name)
    }

    /// How many key columns a relation has, 0 where it isn't there.
    pub fn keys(&self, name: &Name) -> u32
        ensures { result ≡ keys_of self.now name.now }
    {
        self.schema.keys(name)
    }

    /// One relation more, and its number. What was checked is forgotten. An error leaves the schema as it was.
    pub fn declare(&mut self, name: Name, kinds: KindList, keys: u32) -> Result<u32, DeclareFault>
        requires some { 1 ≤ keys }
        requires within { keys ≤ length kinds }
        ensures ok { IfOk result (λ number. (number ≡ length self.old) × (self.new ≡ self.old ++ (name, kinds, keys) ∷ [])) }
        ensures room { OnOk result (length self.old < most_relations) }
        ensures taken { IsErrOf result DeclareFault.Taken ↔ IsSome (number_of self.old name) }
        ensures full { IsErrOf result DeclareFault.Full ↔ ((number_of self.old name ≡ None) × (length self.old ≡ most_relations)) }
        ensures err { OnErr result (self.new ≡ self.old) }
    {
        self.table.clear();
        self.schema.declare(name, kinds, keys)
    }

    /// Checks the programs.
    pub fn judge_all(
        &mut self,
        alloc: Global,
        programs: &[Program],
    ) -> Result<Vec<Judgement>, NoMemory>
        requires { AllByRecursion IsProgramWithin programs.now }
        ensures checked { IfOk result (λ judgements. map checked_of judgements.items ≡ map (λ (p : ProgramType). checked p self.old) programs.now) }
        ensures fit { IfOk result (λ judgements. (state : State) → IsStateOf self.old state → AllByRecursion (FitsIfGood state) (map checked_of judgements.items)) }
        ensures same { self.new ≡ self.old }
    {
        judged_by(alloc, programs, &self.schema, &mut self.table)
    }

    /// Keeps programs that were run, with what the check of each gave, for others to come.
    pub fn retire(&mut self, programs: ProgramList, judgements: Vec<Judgement>)
        requires { map checked_of judgements.items ≡ map (λ (p : ProgramType). checked p self.old) programs }
        ensures { self.new ≡ self.old }
    {
        retire(&mut self.table, programs, judgements);
    }
}
