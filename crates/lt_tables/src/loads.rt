//! Batches of programs that insert rows.
ghost use Rattle.std.specs.Prelude.{◌≡◌, ◌≤◌, true, length, IfOk, IfSome};
ghost use Rattle.lt_face.specs.Rows.{IsCell};
ghost use Rattle.lt_model.specs.Limits.{IsProgramWithin, IsStatementWithin, IsWithinLimits};
ghost use Rattle.lt_model.specs.declared.syntax.Item.TheVariants as items;
ghost use Rattle.lt_tables.specs.Loads.{AreConstants};

use crate::table_rows::TableRows;
use lt_face::NoMemory;
use lt_face::key::{CELL_LIMIT, Key};
use lt_face::limits::{MOST_COLUMNS, MOST_STATEMENTS};
use lt_model::form::Wording;
use lt_model::kind::Kind;
use lt_model::name::Name;
use lt_model::syntax::{
    Head, LiteralList, Program, ProgramList, Statement, StatementList, Term, TermList,
};
use std::alloc::Global;

// So many programs a batch.
const PROGRAMS: usize = 64;

/// How many rows a batch inserts.
pub const BATCH: usize = PROGRAMS * MOST_STATEMENTS;

fn is_cell(cell: Key) -> bool
    ensures { result ≡ true → IsCell cell }
{
    1 <= cell && cell < CELL_LIMIT
}

// The cells of a row as constants, up to the first that is none.
fn constants(alloc: Global, kinds: &[Kind], cells: &[Key]) -> Result<TermList, NoMemory>
    ensures constants { IfOk result (λ terms. AreConstants terms) }
    ensures few { IfOk result (λ terms. length terms ≤ length kinds.now) }
{
    let mut terms = TermList::from_vec(Vec::with_capacity(alloc, kinds.len())?);
    for column in 0..kinds.len() {
        let kind = kinds[column];
        let cell = cells.get(column).copied().unwrap_or(0);
        if !is_cell(cell) {
            break;
        }
        terms.push(Term::Cell(kind, cell))?;
    }
    Ok(terms)
}

// The statement that inserts a row. None where it has no columns, or too many, as no row of a relation has.
fn insert_of(
    alloc: Global,
    name: &Name,
    kinds: &[Kind],
    cells: &[Key],
) -> Result<Option<Statement>, NoMemory>
    ensures { IfOk result (λ found. IfSome found IsStatementWithin) }
{
    if kinds.len() > MOST_COLUMNS {
        return Ok(None);
    }
    let terms = constants(alloc, kinds, cells)?;
    if terms.len() == 0 {
        return Ok(None);
    }
    let relation = Name::from_bytes(alloc, name.as_bytes());
    let head = Head { relation, terms };
    let body = LiteralList::new(alloc);
    Ok(Some(Statement::Insert { head, body }))
}

// The program that inserts the rows from this place on, as many as a program has statements.
fn program_of(
    alloc: Global,
    name: &Name,
    kinds: &[Kind],
    rows: &TableRows,
    from: usize,
) -> Result<Program, NoMemory>
    ensures { IfOk result IsProgramWithin }
{
    let mut statements = StatementList::from_vec(Vec::with_capacity(alloc, MOST_STATEMENTS)?);
    for step in 0..MOST_STATEMENTS {
        let place = from.saturating_add(step);
        if place >= rows.len() {
            break;
        }
        let Some(statement) = insert_of(alloc, name, kinds, rows.row(place))? else {
            break;
        };
        statements.push(Wording::whole(statement))?;
    }
    let name = Name::from_bytes(alloc, b"load");
    Ok(Program { name, statements })
}

/// The programs that insert the rows from this place on, as many as a batch inserts.
pub fn programs_of(
    alloc: Global,
    name: &Name,
    kinds: &[Kind],
    rows: &TableRows,
    from: usize,
) -> Result<ProgramList, NoMemory>
    ensures { IfOk result (λ programs. IsWithinLimits (items.Batch programs)) }
{
    let mut programs = ProgramList::from_vec(Vec::with_capacity(alloc, PROGRAMS)?);
    for step in 0..PROGRAMS {
        let place = from.saturating_add(step * MOST_STATEMENTS);
        if place >= rows.len() {
            break;
        }
        let program = program_of(alloc, name, kinds, rows, place)?;
        programs.push(program)?;
    }
    Ok(programs)
}
