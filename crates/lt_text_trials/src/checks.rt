//! Programs as text, and the codes that their statements have; one normal form in full; and relations by name.
ghost use Rattle.std.specs.Prelude.{IfSome};
ghost use Rattle.std.specs.List.{AllByRecursion};
ghost use Rattle.lt_model.specs.Limits.{IsProgramWithin};

use crate::agree::{same, same_at};
use lt_check::check::{CheckFault, check};
use lt_check::schema::{DeclareFault, Schema};
use lt_face::NoMemory;
use lt_model::kind::{Kind, KindList};
use lt_model::name::Name;
use lt_model::normal::Term::{Cell, Var};
use lt_model::normal::{Body, Prog, Stmt, Test};
use lt_script::{Item, ProgramList, Reader, Step};
use std::alloc::Global;
use std::process::Abort;

// The programs of a script that begins with a batch.
fn programs_of(alloc: Global, script: &str) -> Option<ProgramList>
    ensures { IfSome result (λ programs. AllByRecursion IsProgramWithin programs) }
{
    let mut reader = Reader::over(script.as_bytes());
    match reader.next_item(alloc) {
        Step::Item(Item::Batch { programs }) => Some(programs),
        _ => None,
    }
}

// The check of a script's first program. A script without one answers as if memory had ended.
fn checked(alloc: Global, script: &str, schema: &Schema) -> Result<Prog, CheckFault> {
    let Some(programs) = programs_of(alloc, script) else {
        return Err(CheckFault::NoMemory);
    };
    match programs.as_slice() {
        [program, ..] => check(alloc, program, schema),
        [] => Err(CheckFault::NoMemory),
    }
}

fn name(alloc: Global, byte: u8) -> Name {
    Name::from_bytes(alloc, &[byte])
}

// r(int), s(sym), t(int, sym), f(int -> sym).
fn relations(alloc: Global) -> Result<Schema, DeclareFault> {
    let mut schema = Schema::new(alloc);
    let int = KindList::from_kinds(alloc, &[Kind::Int]);
    let sym = KindList::from_kinds(alloc, &[Kind::Sym]);
    schema.declare(name(alloc, b'r'), int, 1)?;
    schema.declare(name(alloc, b's'), sym, 1)?;
    let both = KindList::from_kinds(alloc, &[Kind::Int, Kind::Sym]);
    schema.declare(name(alloc, b't'), both, 2)?;
    let both = KindList::from_kinds(alloc, &[Kind::Int, Kind::Sym]);
    schema.declare(name(alloc, b'f'), both, 1)?;
    Ok(schema)
}

// The number of the statement that has a code, and the code; 0 for both where none has one.
fn verdict(alloc: Global, script: &str) -> Result<(u32, u32), NoMemory> {
    let Ok(schema) = relations(alloc) else {
        return Err(NoMemory);
    };
    match checked(alloc, script, &schema) {
        Ok(_) => Ok((0, 0)),
        Err(CheckFault::Bad { code, statement }) => Ok((statement, code)),
        Err(CheckFault::NoMemory) => Err(NoMemory),
    }
}

const CODES: [(&str, (u32, u32)); 3] = [
    (
        "batch program p insert r(1); require some x = y, r(y); end; commit;",
        (0, 0),
    ),
    (
        "batch program p insert r(1); insert z(1); end; commit;",
        (2, 20),
    ),
    (
        "batch program p insert r(1); insert r(1); insert t(x, 'a'); end; commit;",
        (3, 23),
    ),
];

#[test]
fn statements_have_their_codes(rt: HostRuntime) -> Result<(), NoMemory> {
    for (script, expected) in CODES {
        same_at(&rt, verdict(rt.alloc(), script)?, expected, script);
    }
    Ok(())
}

// The numbers of the third relation and of one that isn't there, and how many there are.
fn numbers(alloc: Global, schema: &Schema) -> (Option<u32>, Option<u32>, usize) {
    let third = schema.find(&name(alloc, b't'));
    let none = schema.find(&name(alloc, b'z'));
    (third, none, schema.headings().len())
}

#[test]
fn relations_have_numbers(rt: HostRuntime) -> Result<(), DeclareFault> {
    let alloc = rt.alloc();
    let mut schema = relations(alloc)?;
    same(&rt, numbers(alloc, &schema), (Some(2), None, 4));
    let kinds = KindList::from_kinds(alloc, &[Kind::Int]);
    let again = schema.declare(name(alloc, b'r'), kinds, 1);
    same(&rt, again, Err(DeclareFault::Taken));
    Ok(())
}

// Ends the test unless the body is t(x, y), z = x + 1, where y has the number 0, x 1 and z 2.
fn is_body(rt: &impl Abort, body: &Body) {
    same(rt, body.vars, 3);
    let [atom] = body.atoms.as_slice() else {
        panic!(rt; "other atoms");
    };
    same(rt, atom.relation, 2);
    same(rt, atom.terms.as_slice(), [Var(1), Var(0)].as_slice());
    let sum = Test::Sum {
        var: 2,
        a: Var(1),
        minus: false,
        b: Cell(9_223_372_036_854_775_810),
    };
    same(rt, body.tests.as_slice(), [sum].as_slice());
}

// Ends the test unless the statement is print (y, 'a', x), where y is a symbol and x an int, over that body.
fn is_print(rt: &impl Abort, statements: &[Stmt]) {
    let [Stmt::Print { terms, kinds, body }] = statements else {
        panic!(rt; "other statements");
    };
    let printed = [Var(0), Cell(97 << 112), Var(1)];
    same(rt, terms.as_slice(), printed.as_slice());
    let printed = [Kind::Sym, Kind::Sym, Kind::Int];
    same(rt, kinds.as_slice(), printed.as_slice());
    is_body(rt, body);
}

#[test]
fn variables_are_numbered_in_text_order(rt: HostRuntime) -> Result<(), CheckFault> {
    let alloc = rt.alloc();
    let Ok(schema) = relations(alloc) else {
        return Err(CheckFault::NoMemory);
    };
    let script = "batch program p print (y, 'a', x) where t(x, y), z = x + 1; end; commit;";
    let prog = checked(alloc, script, &schema)?;
    is_print(&rt, prog.as_slice());
    Ok(())
}
