//! The names of variables in a statement, and how many different ones there are.
ghost use Rattle.std.specs.Prelude.{◌≡◌, ◌≤◌, ◌+◌, ◌++◌, [], IfOk, IfSome, length, fold};
ghost use Rattle.lt_model.specs.Variables.{with_name};
ghost use Rattle.lt_script.specs.Parsed.{texts};
ghost use Rattle.lt_script.specs.Names.{term_names, terms_names, literal_names, body_names, statement_names, few_variables};

use crate::among::contains;
use lt_face::limits::MOST_VARIABLES;
use lt_model::syntax::{Literal, Statement, Term};
use std::alloc::{AllocError, Global};

fn push_term<'a>(names: &mut Vec<&'a [u8]>, term: &'a Term) -> Result<(), AllocError>
    ensures { IfOk result (λ x. texts names.new.items ≡ texts names.old.items ++ term_names term.now) }
{
    match term {
        Term::Name(name) => {
            names.push(name.as_bytes())?;
            Ok(())
        }
        Term::Cell(..) => Ok(()),
    }
}

fn push_terms<'a>(names: &mut Vec<&'a [u8]>, terms: &'a [Term]) -> Result<(), AllocError>
    ensures { IfOk result (λ x. texts names.new.items ≡ texts names.old.items ++ terms_names terms.now) }
{
    for term in terms {
        push_term(names, term)?;
    }
    Ok(())
}

// Adds a name, if it is new.
fn push_once<'a>(names: &mut Vec<&'a [u8]>, name: &'a [u8]) -> Result<(), AllocError>
    ensures { IfOk result (λ x. texts names.new.items ≡ with_name (texts names.old.items) name.now) }
{
    if !contains(names, name) {
        names.push(name)?;
    }
    Ok(())
}

// Each name once, where it stands first.
fn without_repeats<'a>(alloc: Global, names: &[&'a [u8]]) -> Result<Vec<&'a [u8]>, AllocError>
    ensures { IfOk result (λ once. texts once.items ≡ fold with_name [] (texts names.now)) }
{
    let mut once = Vec::new(alloc);
    'names: for name in names {
        push_once(&mut once, *name)?;
    }
    Ok(once)
}

// The names of two terms.
fn push_both<'a>(
    names: &mut Vec<&'a [u8]>,
    left: &'a Term,
    right: &'a Term,
) -> Result<(), AllocError>
    ensures { IfOk result (λ x. texts names.new.items ≡ texts names.old.items ++ (term_names left.now ++ term_names right.now)) }
{
    push_term(names, left)?;
    push_term(names, right)
}

fn push_literal<'a>(names: &mut Vec<&'a [u8]>, literal: &'a Literal) -> Result<(), AllocError>
    ensures { IfOk result (λ x. texts names.new.items ≡ texts names.old.items ++ literal_names literal.now) }
{
    match literal {
        Literal::Atom(head) => push_terms(names, head.terms.as_slice()),
        Literal::Absent(head) => push_terms(names, head.terms.as_slice()),
        Literal::Cmp { left, right, .. } => push_both(names, left, right),
        Literal::Sum { var, a, b, .. } => {
            names.push(var.as_bytes())?;
            push_both(names, a, b)
        }
    }
}

fn push_literals<'a>(names: &mut Vec<&'a [u8]>, literals: &'a [Literal]) -> Result<(), AllocError>
    ensures { IfOk result (λ x. texts names.new.items ≡ texts names.old.items ++ body_names literals.now) }
{
    for literal in literals {
        push_literal(names, literal)?;
    }
    Ok(())
}

// The names of a statement's terms and of its body.
fn push_rule<'a>(
    names: &mut Vec<&'a [u8]>,
    terms: &'a [Term],
    body: &'a [Literal],
) -> Result<(), AllocError>
    ensures { IfOk result (λ x. texts names.new.items ≡ texts names.old.items ++ (terms_names terms.now ++ body_names body.now)) }
{
    push_terms(names, terms)?;
    push_literals(names, body)
}

fn push_statement<'a>(names: &mut Vec<&'a [u8]>, statement: &'a Statement) -> Result<(), AllocError>
    ensures { IfOk result (λ x. texts names.new.items ≡ texts names.old.items ++ statement_names statement.now) }
{
    match statement {
        Statement::Insert { head, body } | Statement::Delete { head, body } => {
            push_rule(names, head.terms.as_slice(), body.as_slice())
        }
        Statement::Replace { gone, come, body } => {
            push_terms(names, gone.terms.as_slice())?;
            push_rule(names, come.terms.as_slice(), body.as_slice())
        }
        Statement::Require { body, .. } => push_literals(names, body.as_slice()),
        Statement::Print { terms, body } => push_rule(names, terms.as_slice(), body.as_slice()),
    }
}

// The room behind so many.
fn room_behind(room: usize, taken: usize) -> Option<usize>
    ensures { IfSome result (λ left. taken + left ≤ room) }
{
    room.checked_sub(taken)
}

// The room that a literal's names leave, at least.
fn room_behind_literal(room: usize, literal: &Literal) -> Option<usize>
    ensures { IfSome result (λ left. length (literal_names literal.now) + left ≤ room) }
{
    match literal {
        Literal::Atom(head) => room_behind(room, head.terms.as_slice().len()),
        Literal::Absent(head) => room_behind(room, head.terms.as_slice().len()),
        Literal::Cmp { .. } => room_behind(room, 2),
        Literal::Sum { .. } => room_behind(room, 3),
    }
}

// The room that the names of a body leave, at least.
fn room_behind_body(room: usize, body: &[Literal]) -> Option<usize>
    ensures { IfSome result (λ left. length (body_names body.now) + left ≤ room) }
{
    let mut left = room;
    for literal in body {
        left = room_behind_literal(left, literal)?;
    }
    Some(left)
}

// The room that the names of terms and of a body leave, at least.
fn room_behind_rule(room: usize, terms: &[Term], body: &[Literal]) -> Option<usize>
    ensures { IfSome result (λ left. length terms.now + length (body_names body.now) + left ≤ room) }
{
    let left = room_behind(room, terms.len())?;
    room_behind_body(left, body)
}

// The room that a statement's names leave, at least.
fn room_behind_statement(room: usize, statement: &Statement) -> Option<usize>
    ensures { IfSome result (λ left. length (statement_names statement.now) + left ≤ room) }
{
    match statement {
        Statement::Insert { head, body } => room_behind_rule(
            room,
            head.terms.as_slice(),
            body.as_slice(),
        ),
        Statement::Delete { head, body } => room_behind_rule(
            room,
            head.terms.as_slice(),
            body.as_slice(),
        ),
        Statement::Replace { gone, come, body } => {
            let left = room_behind(room, gone.terms.as_slice().len())?;
            room_behind_rule(left, come.terms.as_slice(), body.as_slice())
        }
        Statement::Require { body, .. } => room_behind_body(room, body.as_slice()),
        Statement::Print { terms, body } => room_behind_rule(
            room,
            terms.as_slice(),
            body.as_slice(),
        ),
    }
}

/// Whether a statement has at most sixteen variables. They are counted only where more than sixteen terms may be names.
#[tactic(auto, unfolding(crate::specs::Names::few_variables), using(crate::proofs::Counting::few_in_all))]
pub fn has_few_names(alloc: Global, statement: &Statement) -> Result<bool, AllocError>
    ensures { IfOk result (λ b. b ≡ few_variables statement.now) }
{
    if room_behind_statement(MOST_VARIABLES, statement).is_some() {
        return Ok(true);
    }
    let mut names = Vec::new(alloc);
    push_statement(&mut names, statement)?;
    Ok(without_repeats(alloc, &names)?.len() <= MOST_VARIABLES)
}
