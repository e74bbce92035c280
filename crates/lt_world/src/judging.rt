//! The check of the programs of a batch.
ghost use Rattle.std.specs.Prelude.{◌≡◌, map, IfOk};
ghost use Rattle.std.specs.List.{AllByRecursion};
ghost use Rattle.lt_face.specs.State.{State};
ghost use Rattle.lt_model.specs.Check.{checked};
ghost use Rattle.lt_model.specs.Limits.{IsProgramWithin};
ghost use Rattle.lt_model.specs.declared.syntax.Program.{Program as ProgramType};
ghost use Rattle.lt_check.specs.States.{IsStateOf};
ghost use Rattle.lt_world.specs.Batches.{checked_of, FitsIfGood};
ghost use Rattle.lt_world.specs.Prepared.{AreChecked};

use crate::batch::Judgement;
use crate::checks::Table;
use crate::making::made;
use crate::reusing::reused;
use lt_check::Desk;
use lt_check::check::CheckFault;
use lt_check::schema::Schema;
use lt_face::NoMemory;
use lt_model::syntax::Program;
use std::alloc::Global;

// Checks a program.
fn judged<'a>(
    alloc: Global,
    program: &'a Program,
    schema: &'a Schema,
    desk: &mut Desk<'a>,
    table: &mut Table,
) -> Result<Judgement, NoMemory>
    requires within { IsProgramWithin program.now }
    requires table { AreChecked schema.now table.old }
    ensures checked { IfOk result (λ judgement. checked_of judgement ≡ checked program.now schema.now) }
    ensures fits { IfOk result (λ judgement. (state : State) → IsStateOf schema.now state → FitsIfGood state (checked_of judgement)) }
    ensures table { AreChecked schema.now table.new }
{
    let _keyed = schema.headings();
    if let Some(planned) = reused(table, schema, program) {
        return Ok(Judgement::Good(planned));
    }
    match made(alloc, program, schema, desk, table) {
        Ok(planned) => Ok(Judgement::Good(planned)),
        Err(CheckFault::Bad { code, statement }) => Ok(Judgement::Bad { code, statement }),
        Err(CheckFault::NoMemory) => Err(NoMemory),
    }
}

/// Checks the programs, and keeps what is checked of forms.
pub fn judged_by(
    alloc: Global,
    programs: &[Program],
    schema: &Schema,
    table: &mut Table,
) -> Result<Vec<Judgement>, NoMemory>
    requires within { AllByRecursion IsProgramWithin programs.now }
    requires table { AreChecked schema.now table.old }
    ensures checked { IfOk result (λ judgements. map checked_of judgements.items ≡ map (λ (p : ProgramType). checked p schema.now) programs.now) }
    ensures fit { IfOk result (λ judgements. (state : State) → IsStateOf schema.now state → AllByRecursion (FitsIfGood state) (map checked_of judgements.items)) }
    ensures table { AreChecked schema.now table.new }
{
    let mut desk = Desk::new(alloc);
    let mut judgements = Vec::with_capacity(alloc, programs.len())?;
    for program in programs {
        let judgement = judged(alloc, program, schema, &mut desk, table)?;
        judgements.push(judgement)?;
    }
    Ok(judgements)
}

/// Checks the programs, for who has no hold of what was checked before.
pub fn all_judged(
    alloc: Global,
    programs: &[Program],
    schema: &Schema,
) -> Result<Vec<Judgement>, NoMemory>
    requires { AllByRecursion IsProgramWithin programs.now }
    ensures checked { IfOk result (λ judgements. map checked_of judgements.items ≡ map (λ (p : ProgramType). checked p schema.now) programs.now) }
    ensures fit { IfOk result (λ judgements. (state : State) → IsStateOf schema.now state → AllByRecursion (FitsIfGood state) (map checked_of judgements.items)) }
{
    let mut table = Table::new(alloc);
    judged_by(alloc, programs, schema, &mut table)
}
