//! Warnings: what a statement says that may not have been meant. They are advice, and no program is refused for one.
use crate::deciding::Decided;
use lt_check::schema::Schema;
use lt_face::NoMemory;
use lt_model::name::Name;
use lt_model::syntax::{Head, Literal, Program, Statement, Term};
use std::alloc::Global;

/// A warning of a statement of this number, from 1: its code, and the name that it is about.
#[derive(Clone, Copy)]
pub struct Warning<'a> {
    pub statement: u32,
    pub code: u32,
    pub about: &'a Name,
}

/// A value that comes in isn't decided by its key.
pub const UNDECIDED: u32 = 40;

/// A `not` names a whole row of a relation with keys.
pub const WHOLE: u32 = 41;

/// A variable stands once.
pub const ONCE: u32 = 42;

fn body_of(statement: &Statement) -> &[Literal] {
    match statement {
        Statement::Insert { body, .. } => body.as_slice(),
        Statement::Delete { body, .. } => body.as_slice(),
        Statement::Replace { body, .. } => body.as_slice(),
        Statement::Require { body, .. } => body.as_slice(),
        Statement::Print { body, .. } => body.as_slice(),
    }
}

// The first value of a row that comes in which its key doesn't decide.
fn undecided<'a>(
    alloc: Global,
    schema: &Schema,
    head: &'a Head,
    body: &'a [Literal],
) -> Result<Option<&'a Name>, NoMemory> {
    let terms = head.terms.as_slice();
    let keys = schema.keys(&head.relation) as usize;
    let (key, values) = terms.split_at(keys.min(terms.len()));
    let mut decided = Decided::by(alloc, key)?;
    decided.close(schema, body)?;
    for value in values {
        if let Term::Name(name) = value {
            if !decided.has_name(name) {
                return Ok(Some(name));
            }
        }
    }
    Ok(None)
}

// Warns where a statement puts in a row whose key doesn't decide its values.
fn warn_of_values<'a>(
    alloc: Global,
    schema: &Schema,
    number: u32,
    statement: &'a Statement,
    warnings: &mut Vec<Warning<'a>>,
) -> Result<(), NoMemory> {
    let about = match statement {
        Statement::Insert { head, body } => undecided(alloc, schema, head, body.as_slice())?,
        Statement::Replace { come, body, .. } => undecided(alloc, schema, come, body.as_slice())?,
        _ => None,
    };
    if let Some(about) = about {
        warnings.push(Warning {
            statement: number,
            code: UNDECIDED,
            about,
        })?;
    }
    Ok(())
}

// Whether a value of a row isn't a constant, where its relation has keys.
fn has_open_value(schema: &Schema, head: &Head) -> bool {
    let terms = head.terms.as_slice();
    let keys = schema.keys(&head.relation) as usize;
    let (_, values) = terms.split_at(keys.min(terms.len()));
    keys > 0 && values.iter().any(|value| matches!(value, Term::Name(_)))
}

// Warns of each `not` that may have been meant for a key alone.
fn warn_of_absents<'a>(
    schema: &Schema,
    number: u32,
    statement: &'a Statement,
    warnings: &mut Vec<Warning<'a>>,
) -> Result<(), NoMemory> {
    for literal in body_of(statement) {
        if let Literal::Absent(head) = literal {
            if has_open_value(schema, head) {
                warnings.push(Warning {
                    statement: number,
                    code: WHOLE,
                    about: &head.relation,
                })?;
            }
        }
    }
    Ok(())
}

fn push_names<'a>(names: &mut Vec<&'a Name>, terms: &'a [Term]) -> Result<(), NoMemory> {
    for term in terms {
        if let Term::Name(name) = term {
            names.push(name)?;
        }
    }
    Ok(())
}

fn push_name<'a>(names: &mut Vec<&'a Name>, term: &'a Term) -> Result<(), NoMemory> {
    if let Term::Name(name) = term {
        names.push(name)?;
    }
    Ok(())
}

// Lists the variables of a condition, each as often as it stands there.
fn push_literal<'a>(names: &mut Vec<&'a Name>, literal: &'a Literal) -> Result<(), NoMemory> {
    match literal {
        Literal::Atom(head) => push_names(names, head.terms.as_slice()),
        Literal::Absent(head) => push_names(names, head.terms.as_slice()),
        Literal::Cmp { left, right, .. } => {
            push_name(names, left)?;
            push_name(names, right)
        }
        Literal::Sum { var, a, b, .. } => {
            names.push(var)?;
            push_name(names, a)?;
            push_name(names, b)
        }
    }
}

// Lists the variables of a statement's heads, each as often as it stands there.
fn push_heads<'a>(names: &mut Vec<&'a Name>, statement: &'a Statement) -> Result<(), NoMemory> {
    match statement {
        Statement::Insert { head, .. } => push_names(names, head.terms.as_slice()),
        Statement::Delete { head, .. } => push_names(names, head.terms.as_slice()),
        Statement::Replace { gone, come, .. } => {
            push_names(names, gone.terms.as_slice())?;
            push_names(names, come.terms.as_slice())
        }
        Statement::Require { .. } => Ok(()),
        Statement::Print { terms, .. } => push_names(names, terms.as_slice()),
    }
}

// Lists the variables of a statement, each as often as it stands there.
fn all_names<'a>(alloc: Global, statement: &'a Statement) -> Result<Vec<&'a Name>, NoMemory> {
    let mut names = Vec::new(alloc);
    push_heads(&mut names, statement)?;
    for literal in body_of(statement) {
        push_literal(&mut names, literal)?;
    }
    Ok(names)
}

fn count_of(names: &[&Name], name: &Name) -> usize {
    let mut count = 0usize;
    for other in names {
        if other.as_bytes() == name.as_bytes() {
            count = count.saturating_add(1);
        }
    }
    count
}

// Warns of each variable that stands once, but for those whose names begin with `_`.
fn warn_of_names<'a>(
    alloc: Global,
    number: u32,
    statement: &'a Statement,
    warnings: &mut Vec<Warning<'a>>,
) -> Result<(), NoMemory> {
    let names = all_names(alloc, statement)?;
    for name in names.as_slice() {
        let is_meant = name.as_bytes().starts_with(b"_");
        if !is_meant && count_of(names.as_slice(), name) == 1 {
            warnings.push(Warning {
                statement: number,
                code: ONCE,
                about: name,
            })?;
        }
    }
    Ok(())
}

/// The warnings of a program, in the order of its statements.
pub fn warnings_of<'a>(
    alloc: Global,
    schema: &Schema,
    program: &'a Program,
) -> Result<Vec<Warning<'a>>, NoMemory> {
    let mut warnings = Vec::new(alloc);
    let mut number = 0u32;
    for wording in program.statements.as_slice() {
        let statement = wording.but_for_cells();
        number = number.saturating_add(1);
        warn_of_values(alloc, schema, number, statement, &mut warnings)?;
        warn_of_absents(schema, number, statement, &mut warnings)?;
        warn_of_names(alloc, number, statement, &mut warnings)?;
    }
    Ok(warnings)
}
