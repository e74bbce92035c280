//! The normal form of statements, whose terms are taken in text order, each once.
ghost use Rattle.std.specs.Prelude.{◌≡◌, ◌≤◌, ℕ, [], ◌∷◌, IfOk, List, length, flat_map};
ghost use Rattle.std.specs.List.{list_all};
ghost use Rattle.lt_face.specs.Limits.{most_variables};
ghost use Rattle.lt_model.specs.declared.syntax.Term.TheVariants as given;
ghost use Rattle.lt_model.specs.declared.syntax.Literal.TheVariants as literals;
ghost use Rattle.lt_model.specs.declared.normal.Test.TheVariants as tests;
ghost use Rattle.lt_model.specs.Schema as model_schema;
ghost use Rattle.lt_model.specs.Variables.{place_of, heads_of, front_terms, literal_terms};
ghost use Rattle.lt_model.specs.Limits.{ArePrintedWithin};
ghost use Rattle.lt_model.specs.Check.{kind_of, same_kind, atom_fits, literal_fits, normal_body, normal_with, atom as normal_atom, term as normal_term};
ghost use Rattle.lt_check.specs.Narrowing.{completed};
ghost use Rattle.lt_check.specs.Taking.{IsWhole, Takes, Adds, says, front_of, printed_terms};

use crate::notes::Notes;
use crate::schema::Schema;
use lt_face::items::Items;
use lt_face::limits::MOST_VARIABLES;
use lt_face::memory::NoMemory;
use lt_model::kind::Kind;
use lt_model::name::Name;
use lt_model::normal::{Atom, Body, Stmt, TermList, Test};
use lt_model::syntax;
use lt_model::syntax::{Head, Literal, Op, Statement};
use std::alloc::Global;

/// What a statement has before its body.
#[derive(Drop)]
pub enum Front {
    Insert { head: Atom, keys: u32 },
    Delete { head: Atom },
    Replace { gone: Atom, come: Atom, keys: u32 },
    Require { some: bool },
    Print { terms: TermList },
}

// An atom with numbers for its relation and its variables. A relation that isn't there gets 0.
fn atom<'a>(
    alloc: Global,
    schema: &Schema,
    notes: &mut Notes<'a>,
    head: &'a Head,
) -> Result<Atom, NoMemory>
    ensures takes { IfOk result (λ _. Takes head.now.terms (λ whole choice. atom_fits schema.now (kind_of whole choice) head.now) notes.old notes.new) }
    ensures atom { IfOk result (λ atom. (whole : List (List ℕ)) → IsWhole notes.new.names whole → atom ≡ normal_atom schema.now whole head.now) }
{
    let (relation, columns) = schema.look_up(&head.relation);
    let terms = notes.row(alloc, head.terms.as_slice(), columns)?;
    Ok(Atom { relation, terms })
}

fn comparison<'a>(
    notes: &mut Notes<'a>,
    left: &'a syntax::Term,
    op: Op,
    right: &'a syntax::Term,
) -> Result<Test, NoMemory>
    ensures takes { IfOk result (λ _. Takes (left.now ∷ right.now ∷ []) (λ whole choice. same_kind (kind_of whole choice left.now) (kind_of whole choice right.now)) notes.old notes.new) }
    ensures test { IfOk result (λ test. (whole : List (List ℕ)) → IsWhole notes.new.names whole → test ≡ tests.Cmp (normal_term whole left.now) op (normal_term whole right.now)) }
{
    let (left, right) = notes.alike(left, right)?;
    Ok(Test::Cmp { left, op, right })
}

fn sum<'a>(
    notes: &mut Notes<'a>,
    var: &'a Name,
    a: &'a syntax::Term,
    minus: bool,
    b: &'a syntax::Term,
) -> Result<Test, NoMemory>
    ensures takes { IfOk result (λ _. Takes (given.Name var.now ∷ a.now ∷ b.now ∷ []) (λ whole choice. literal_fits (kind_of whole choice) (literals.Sum var.now a.now minus b.now)) notes.old notes.new) }
    ensures test { IfOk result (λ test. (whole : List (List ℕ)) → IsWhole notes.new.names whole → test ≡ tests.Sum (place_of whole var.now) (normal_term whole a.now) minus (normal_term whole b.now)) }
{
    let var = notes.int(var)?;
    let a = notes.kinded(a, Kind::Int)?;
    let b = notes.kinded(b, Kind::Int)?;
    Ok(Test::Sum { var, a, minus, b })
}

// Adds a literal to a body.
fn add_literal<'a>(
    alloc: Global,
    schema: &Schema,
    notes: &mut Notes<'a>,
    literal: &'a Literal,
    body: &mut Body,
) -> Result<(), NoMemory>
    ensures takes { IfOk result (λ _. Takes (literal_terms literal.now) (λ whole choice. says schema.now (kind_of whole choice) literal.now) notes.old notes.new) }
    ensures adds { IfOk result (λ _. (whole : List (List ℕ)) → IsWhole notes.new.names whole → Adds schema.now whole (literal.now ∷ []) body.old body.new) }
{
    match literal {
        Literal::Atom(head) => {
            let atom = atom(alloc, schema, notes, head)?;
            body.atoms.push(atom)?;
        }
        Literal::Absent(head) => {
            let atom = atom(alloc, schema, notes, head)?;
            body.absents.push(atom)?;
        }
        Literal::Cmp { left, op, right } => {
            let test = comparison(notes, left, *op, right)?;
            body.tests.push(test)?;
        }
        Literal::Sum { var, a, minus, b } => {
            let test = sum(notes, var, a, *minus, b)?;
            body.tests.push(test)?;
        }
    }
    Ok(())
}

// Adds literals to a body.
fn add_literals<'a>(
    alloc: Global,
    schema: &Schema,
    notes: &mut Notes<'a>,
    literals: &'a [Literal],
    body: &mut Body,
) -> Result<(), NoMemory>
    ensures takes { IfOk result (λ _. Takes (flat_map literal_terms literals.now) (λ whole choice. list_all (says schema.now (kind_of whole choice)) literals.now) notes.old notes.new) }
    ensures adds { IfOk result (λ _. (whole : List (List ℕ)) → IsWhole notes.new.names whole → Adds schema.now whole literals.now body.old body.new) }
{
    for literal in literals {
        add_literal(alloc, schema, notes, literal, body)?;
    }
    Ok(())
}

/// A body with its atoms, its negated atoms and its tests apart.
pub fn take_body<'a>(
    alloc: Global,
    schema: &Schema,
    notes: &mut Notes<'a>,
    literals: &'a [Literal],
) -> Result<Body, NoMemory>
    ensures takes { IfOk result (λ _. Takes (flat_map literal_terms literals.now) (λ whole choice. list_all (says schema.now (kind_of whole choice)) literals.now) notes.old notes.new) }
    ensures body { IfOk result (λ body. length notes.new.names ≤ most_variables → body ≡ normal_body schema.now notes.new.names literals.now) }
{
    let mut body = Body {
        atoms: Items::new(alloc),
        absents: Items::new(alloc),
        tests: Items::new(alloc),
        vars: 0,
    };
    add_literals(alloc, schema, notes, literals, &mut body)?;
    body.vars = notes.names.count().min(MOST_VARIABLES) as u32;
    Ok(body)
}

/// What a statement has before its body.
pub fn take_front<'a>(
    alloc: Global,
    schema: &Schema,
    notes: &mut Notes<'a>,
    statement: &'a Statement,
) -> Result<Front, NoMemory>
    ensures takes { IfOk result (λ _. Takes (front_terms statement.now) (λ whole choice. list_all (atom_fits schema.now (kind_of whole choice)) (heads_of statement.now)) notes.old notes.new) }
    ensures front { IfOk result (λ front. (whole : List (List ℕ)) → IsWhole notes.new.names whole → front ≡ front_of schema.now whole statement.now) }
{
    match statement {
        Statement::Insert { head, .. } => {
            let keys = schema.keys(&head.relation);
            let head = atom(alloc, schema, notes, head)?;
            Ok(Front::Insert { head, keys })
        }
        Statement::Delete { head, .. } => {
            let head = atom(alloc, schema, notes, head)?;
            Ok(Front::Delete { head })
        }
        Statement::Replace { gone, come, .. } => {
            let keys = schema.keys(&come.relation);
            let gone = atom(alloc, schema, notes, gone)?;
            let come = atom(alloc, schema, notes, come)?;
            Ok(Front::Replace { gone, come, keys })
        }
        Statement::Require { some, .. } => Ok(Front::Require { some: *some }),
        Statement::Print { terms, .. } => {
            let terms = notes.terms(alloc, terms.as_slice())?;
            Ok(Front::Print { terms })
        }
    }
}

// The terms that a statement prints.
fn printed(statement: &Statement) -> &[syntax::Term]
    ensures { result.now ≡ printed_terms statement.now }
{
    match statement {
        Statement::Print { terms, .. } => terms.as_slice(),
        _ => &[],
    }
}

/// The statement of this front and this body, and with the kinds that are known for printed terms.
pub fn joined(
    alloc: Global,
    notes: &Notes,
    front: Front,
    statement: &Statement,
    body: Body,
) -> Result<Stmt, NoMemory>
    requires { ArePrintedWithin statement.now }
    ensures { IfOk result (λ stmt. (schema : model_schema.Schema) → front ≡ front_of schema notes.now.names statement.now → stmt ≡ normal_with schema notes.now.names body (kind_of notes.now.names (completed notes.now.known)) statement.now) }
{
    match front {
        Front::Insert { head, keys } => Ok(Stmt::Insert { head, keys, body }),
        Front::Delete { head } => Ok(Stmt::Delete { head, body }),
        Front::Replace { gone, come, keys } => Ok(Stmt::Replace {
            gone,
            come,
            keys,
            body,
        }),
        Front::Require { some } => Ok(Stmt::Require { some, body }),
        Front::Print { terms } => {
            let kinds = notes.known.kinds(alloc, &notes.names, printed(statement))?;
            Ok(Stmt::Print { terms, kinds, body })
        }
    }
}
