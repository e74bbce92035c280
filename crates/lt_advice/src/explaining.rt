//! How the statements of a program are gone through: in which order the variables of a body get their values, which of them
//! comparisons narrow, and how the rows of each atom are found then.
use crate::advice::warnings_of;
use crate::advising::say_warning;
use crate::cells::Cells;
use crate::lines::Lines;
use crate::narrowed::{Narrowed, Settled};
use crate::routes::{Found, Steps};
use itoa::Buffer;
use lt_check::schema::Schema;
use lt_face::NoMemory;
use lt_input::pieces::push_number;
use lt_input::statements::{on_one_line, statement_at};
use lt_input::words::words_of;
use lt_model::form::Wording;
use lt_model::name::Name;
use lt_model::syntax::{Head, Literal, Op, Program, Statement, Term};
use lt_query::{Stmt, Test, body_of};
use std::alloc::Global;

// The atoms of a statement's body, those behind `not` or the others.
fn heads<'a>(alloc: Global, body: &'a [Literal], absent: bool) -> Result<Vec<&'a Head>, NoMemory> {
    let mut heads = Vec::new(alloc);
    for literal in body {
        match literal {
            Literal::Atom(head) => {
                if !absent {
                    heads.push(head)?;
                }
            }
            Literal::Absent(head) => {
                if absent {
                    heads.push(head)?;
                }
            }
            _ => {}
        }
    }
    Ok(heads)
}

fn literals_of(statement: &Statement) -> &[Literal] {
    match statement {
        Statement::Insert { body, .. } => body.as_slice(),
        Statement::Delete { body, .. } => body.as_slice(),
        Statement::Replace { body, .. } => body.as_slice(),
        Statement::Require { body, .. } => body.as_slice(),
        Statement::Print { body, .. } => body.as_slice(),
    }
}

// The term that stands at this place, counted through all atoms.
fn term_at<'a>(heads: &[&'a Head], place: usize) -> Option<&'a Term> {
    let mut left = place;
    for head in heads {
        let terms = head.terms.as_slice();
        if let Some(term) = terms.get(left) {
            return Some(term);
        }
        left = left.saturating_sub(terms.len());
    }
    None
}

// The line of the order.
fn say_order(
    lines: &mut Lines,
    heads: &[&Head],
    cells: Cells,
    steps: &Steps,
) -> Result<(), NoMemory> {
    let mut before: &[u8] = b"  order: ";
    for place in steps.first_places() {
        if let Some(term) = term_at(heads, *place) {
            lines.say(before)?;
            lines.say_term(term, cells)?;
            before = b", ";
        }
    }
    if steps.first_places().is_empty() {
        lines.say(b"  order: no variable")?;
    }
    lines.end()
}

fn op_text(op: Op) -> &'static str {
    match op {
        Op::Eq => " = ",
        Op::Ne => " != ",
        Op::Lt => " < ",
        Op::Le => " <= ",
        Op::Gt => " > ",
        Op::Ge => " >= ",
    }
}

// Puts a comparison that narrows a variable behind that variable.
fn say_comparison(
    lines: &mut Lines,
    cells: Cells,
    narrowed: Narrowed,
    left: &Term,
    op: Op,
    right: &Term,
) -> Result<(), NoMemory> {
    let variable = if matches!(narrowed, Narrowed::Right) {
        right
    } else {
        left
    };
    lines.say_term(variable, cells)?;
    lines.say(b" by ")?;
    lines.say_term(left, cells)?;
    lines.say(op_text(op).as_bytes())?;
    lines.say_term(right, cells)
}

// Puts a sum that narrows its variable behind it.
fn say_sum(
    lines: &mut Lines,
    cells: Cells,
    var: &Name,
    a: &Term,
    minus: bool,
    b: &Term,
) -> Result<(), NoMemory> {
    let sign: &[u8] = if minus { b" - " } else { b" + " };
    let name = var.as_bytes();
    lines.say_all(&[name, b" by ", name, b" = "])?;
    lines.say_term(a, cells)?;
    lines.say(sign)?;
    lines.say_term(b, cells)
}

// Puts a comparison or a sum that narrows a variable.
fn say_narrowing(
    lines: &mut Lines,
    cells: Cells,
    narrowed: Narrowed,
    literal: &Literal,
) -> Result<(), NoMemory> {
    match literal {
        Literal::Cmp { left, op, right } => {
            say_comparison(lines, cells, narrowed, left, *op, right)
        }
        Literal::Sum { var, a, minus, b } => say_sum(lines, cells, var, a, *minus, b),
        _ => Ok(()),
    }
}

// The line of what comparisons narrow, where they do. The tests are those of the body's comparisons and sums, in the order of the text.
fn say_narrowed(
    alloc: Global,
    lines: &mut Lines,
    body: &[Literal],
    tests: &[Test],
    cells: Cells,
    steps: &Steps,
) -> Result<(), NoMemory> {
    let settled = Settled::by(alloc, steps.levels(), tests)?;
    let compared = body.iter().filter(|literal| !matches!(
        literal,
        Literal::Atom(_) | Literal::Absent(_)
    ));
    let mut before: &[u8] = b"  narrowed: ";
    let mut some = false;
    for (literal, test) in compared.zip(tests) {
        let narrowed = settled.narrowed(*test);
        if !matches!(narrowed, Narrowed::No) {
            lines.say(before)?;
            say_narrowing(lines, cells, narrowed, literal)?;
            before = b", ";
            some = true;
        }
    }
    if some { lines.end() } else { Ok(()) }
}

// Behind an atom, through which index it is gone through, where that isn't the order in which it is declared.
fn say_index(lines: &mut Lines, columns: &[u32]) -> Result<(), NoMemory> {
    let mut own = 0u32;
    let mut is_own = true;
    for column in columns {
        is_own = is_own && *column == own;
        own = own.saturating_add(1);
    }
    if is_own {
        return Ok(());
    }
    let mut before: &[u8] = b"; an index of columns ";
    for column in columns {
        lines.say(before)?;
        push_number(&mut lines.text, (*column as u64).saturating_add(1))?;
        before = b", ";
    }
    Ok(())
}

// The line of an atom with this number.
fn say_atom(
    lines: &mut Lines,
    schema: &Schema,
    head: &Head,
    cells: Cells,
    steps: &Steps,
    number: usize,
) -> Result<(), NoMemory> {
    let keys = schema.keys(&head.relation) as usize;
    lines.say(b"  ")?;
    lines.say_head(head, cells)?;
    let words = match steps.found(number, keys) {
        Found::Row => "looked up",
        Found::ByKey => "looked up by its key",
        Found::Range => "gone through in a range",
        Found::Whole => "gone through as a whole",
    };
    lines.say_all(&[b": ", words.as_bytes()])?;
    say_index(lines, steps.columns(number))?;
    lines.end()
}

// The lines of the atoms, in the order of the text.
fn say_atoms(
    lines: &mut Lines,
    schema: &Schema,
    heads: &[&Head],
    cells: Cells,
    steps: &Steps,
) -> Result<(), NoMemory> {
    for (number, head) in heads.iter().enumerate() {
        say_atom(lines, schema, head, cells, steps, number)?;
    }
    Ok(())
}

fn say_absents(lines: &mut Lines, heads: &[&Head], cells: Cells) -> Result<(), NoMemory> {
    for head in heads {
        lines.say(b"  not ")?;
        lines.say_head(head, cells)?;
        lines.say_line(&[b": looked up"])?;
    }
    Ok(())
}

// The lines of a statement's body.
fn say_body(
    alloc: Global,
    lines: &mut Lines,
    schema: &Schema,
    wording: &Wording,
    stmt: &Stmt,
) -> Result<(), NoMemory> {
    let body = body_of(stmt);
    let Some(steps) = Steps::of(alloc, body)? else {
        return Ok(());
    };
    let literals = literals_of(wording.but_for_cells());
    let cells = Cells::of(wording);
    let atoms = heads(alloc, literals, false)?;
    if !atoms.is_empty() {
        say_order(lines, &atoms, cells, &steps)?;
        say_narrowed(alloc, lines, literals, body.tests.as_slice(), cells, &steps)?;
        say_atoms(lines, schema, &atoms, cells, &steps)?;
    }
    let absents = heads(alloc, literals, true)?;
    say_absents(lines, &absents, cells)
}

// The line that begins what is said of a statement.
fn say_statement(
    alloc: Global,
    lines: &mut Lines,
    program: &Program,
    number: u32,
    text: &[u8],
) -> Result<(), NoMemory> {
    let line = on_one_line(alloc, text)?;
    let mut buffer = Buffer::new();
    let number = buffer.format(number).as_bytes();
    lines.say_line(&[program.name.as_bytes(), b" ", number, b" -- ", &line])
}

/// Says how the statements of a program are gone through that has no code. The text is that of the batch, of which it is the program
/// with this place, from 1.
pub fn say_good(
    alloc: Global,
    lines: &mut Lines,
    schema: &Schema,
    program: &Program,
    statements: &[Stmt],
    text: &[u8],
    place: usize,
) -> Result<(), NoMemory> {
    let mut number = 0u32;
    for (wording, stmt) in program.statements.as_slice().iter().zip(statements) {
        number = number.saturating_add(1);
        let (_, told) = statement_at(text, place, number);
        say_statement(alloc, lines, program, number, told)?;
        say_body(alloc, lines, schema, wording, stmt)?;
    }
    Ok(())
}

/// Says which code a program has, and of which statement, whose text this is.
pub fn say_bad(
    alloc: Global,
    lines: &mut Lines,
    program: &Program,
    code: u32,
    statement: u32,
    text: &[u8],
) -> Result<(), NoMemory> {
    lines.say_all(&[program.name.as_bytes(), b" bad "])?;
    lines.say_numbers(code, statement)?;
    let line = on_one_line(alloc, text)?;
    lines.say_line(&[b" ", words_of(code).as_bytes(), b" -- ", &line])
}

/// Says the warnings of a program, the one with this place in the batch that has this text.
pub fn say_warnings(
    alloc: Global,
    lines: &mut Lines,
    schema: &Schema,
    program: &Program,
    text: &[u8],
    place: usize,
) -> Result<(), NoMemory> {
    let warnings = warnings_of(alloc, schema, program)?;
    for warning in warnings.as_slice() {
        let (_, told) = statement_at(text, place, warning.statement);
        say_warning(alloc, lines, None, &program.name, *warning, told)?;
    }
    Ok(())
}
