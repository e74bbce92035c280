//! The check of a program.
ghost use Rattle.std.specs.List.{AllByRecursion};
ghost use Rattle.std.specs.Prelude.{◌≡◌, None, IfOk, IfErr};
ghost use Rattle.lt_model.specs.Check.{checked, Good, code_of, normal};
ghost use Rattle.lt_face.specs.State.{State};
ghost use Rattle.lt_model.specs.Fits.{Fits};
ghost use Rattle.lt_model.specs.Keyed.{keys_in, InsertsBy};
ghost use Rattle.lt_model.specs.Limits.{IsProgramWithin};
ghost use Rattle.lt_model.specs.Within.{IsStatementWithin};
ghost use Rattle.lt_check.specs.States.{IsStateOf};
ghost use Rattle.lt_check.specs.Outcome.{IsFault, IsCode};

use crate::schema::Schema;
use crate::statement::{Desk, check_statement};
use lt_face::memory::NoMemory;
use lt_model::form::{Kept, Wording};
use lt_model::normal::{Prog, Stmt};
use lt_model::syntax::Program;
use lt_model::theorems::forms;
use lt_query::filled;
use std::alloc::Global;

/// Why a program is not checked.
#[derive(Clone, Copy, Debug, PartialEq, Eq)]
pub enum CheckFault {
    /// The number of the first statement that has a code, from 1, and its first code: 20 where a relation isn't there,
    /// 21 at a wrong number of arguments, 22 where no kinds of the variables fit, 23 where a variable isn't bound.
    Bad { code: u32, statement: u32 },
    NoMemory,
}

impl From<NoMemory> for CheckFault {
    ghost use Rattle.lt_check.specs.declared.check.CheckFault.TheVariants as faults;
    ghost use Rattle.std.specs.Prelude.{◌≡◌};

    ghost from_gives = { λ _ e. e ≡ faults.NoMemory };

    fn from(_: NoMemory) -> CheckFault {
        CheckFault::NoMemory
    }
}

/// A program in normal form, or the first code of the first statement that has one. The program is within the
/// limits, as what is read is.
pub fn check(alloc: Global, program: &Program, schema: &Schema) -> Result<Prog, CheckFault>
    requires { IsProgramWithin program.now }
    ensures good { IfOk result (λ prog. checked program.now schema.now ≡ Good prog) }
    ensures fits { IfOk result (λ prog. (state : State) → IsStateOf schema.now state → Fits state prog) }
    ensures keyed { IfOk result (λ prog. AllByRecursion (InsertsBy (keys_in schema.now)) prog) }
    ensures bad { IfErr result (λ fault. IsFault (checked program.now schema.now) fault) }
{
    let mut desk = Desk::new(alloc);
    check_at(alloc, program, schema, &mut desk)
}

/// The normal form of the statement of this number, in whatever way it is kept, or its first code.
fn check_wording<'a>(
    alloc: Global,
    schema: &'a Schema,
    wording: &'a Wording,
    number: u32,
    desk: &mut Desk<'a>,
) -> Result<Stmt, CheckFault>
    requires { IsStatementWithin wording.now }
    ensures good { IfOk result (λ stmt. (code_of schema.now wording.now ≡ None) × (stmt ≡ normal schema.now wording.now)) }
    ensures bad { IfErr result (λ fault. IsCode (code_of schema.now wording.now) number fault) }
{
    match wording.kept() {
        Kept::Whole(statement) => check_statement(alloc, schema, statement, number, desk),
        Kept::Filled(form, cells) => {
            forms();
            let numbered = check_statement(alloc, schema, form.statement(), number, desk)?;
            let stmt = filled(&numbered, cells.as_slice());
            drop(numbered);
            let stmt = stmt?;
            Ok(stmt)
        }
    }
}

/// The same, at a desk whose room serves the next program.
pub fn check_at<'a>(
    alloc: Global,
    program: &'a Program,
    schema: &'a Schema,
    desk: &mut Desk<'a>,
) -> Result<Prog, CheckFault>
    requires { IsProgramWithin program.now }
    ensures good { IfOk result (λ prog. checked program.now schema.now ≡ Good prog) }
    ensures fits { IfOk result (λ prog. (state : State) → IsStateOf schema.now state → Fits state prog) }
    ensures keyed { IfOk result (λ prog. AllByRecursion (InsertsBy (keys_in schema.now)) prog) }
    ensures bad { IfErr result (λ fault. IsFault (checked program.now schema.now) fault) }
{
    let _keyed = schema.headings();
    let mut prog = Prog::new(alloc);
    for (place, statement) in program.statements.as_slice().iter().enumerate() {
        let stmt = check_wording(alloc, schema, statement, place as u32 + 1, desk)?;
        prog.push(stmt)?;
    }
    Ok(prog)
}
