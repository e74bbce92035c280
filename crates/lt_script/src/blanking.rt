//! Statements with numbers in the places of their constants.
ghost use Rattle.std.specs.Prelude.{◌≡◌, ◌++◌, [], ◌∷◌, length, flat_map, IfOk, OnOk};
ghost use Rattle.lt_model.specs.Forms.{cells_in, cells_of, numbered_term, numbered_terms, numbered_head, numbered_literal, numbered_body, numbered};
ghost use Rattle.lt_model.specs.Variables.{literal_terms};
ghost use Rattle.lt_script.specs.Constants.{constant_in};

use lt_face::key::Key;
use lt_face::memory::NoMemory;
use lt_model::form::CellList;
use lt_model::kind::Kind;
use lt_model::syntax::{Head, Literal, LiteralList, Statement, Term, TermList};

// The kind and the cell of a constant.
fn constant_of(term: &Term) -> Option<(Kind, Key)>
    ensures { result ≡ constant_in term.now }
{
    match term {
        Term::Name(_) => None,
        Term::Cell(kind, cell) => Some((*kind, *cell)),
    }
}

fn blanked_term(term: Term, cells: &mut CellList) -> Result<Term, NoMemory>
    ensures term { IfOk result (λ new. new ≡ numbered_term (length cells.old.items) term) }
    ensures cells { OnOk result (cells.new.items ≡ cells.old.items ++ cells_in (term ∷ [])) }
{
    match term {
        Term::Name(name) => Ok(Term::Name(name)),
        Term::Cell(kind, cell) => {
            cells.push(cell)?;
            Ok(Term::Cell(kind, cells.len() as Key))
        }
    }
}

fn blanked_terms(terms: TermList, cells: &mut CellList) -> Result<TermList, NoMemory>
    ensures terms { IfOk result (λ new. new ≡ numbered_terms (length cells.old.items) terms) }
    ensures cells { OnOk result (cells.new.items ≡ cells.old.items ++ cells_in terms) }
{
    let mut blanked = terms.into_vec();
    for i in 0..blanked.len() {
        if let Some((kind, cell)) = constant_of(&blanked[i]) {
            cells.push(cell)?;
            blanked[i] = Term::Cell(kind, cells.len() as Key);
        }
    }
    Ok(TermList::from_vec(blanked))
}

fn blanked_head(head: Head, cells: &mut CellList) -> Result<Head, NoMemory>
    ensures head { IfOk result (λ new. new ≡ numbered_head (length cells.old.items) head) }
    ensures cells { OnOk result (cells.new.items ≡ cells.old.items ++ cells_in head.terms) }
{
    let Head { relation, terms } = head;
    let terms = blanked_terms(terms, cells)?;
    Ok(Head { relation, terms })
}

fn blanked_literal(literal: Literal, cells: &mut CellList) -> Result<Literal, NoMemory>
    ensures literal { IfOk result (λ new. new ≡ numbered_literal (length cells.old.items) literal) }
    ensures cells { OnOk result (cells.new.items ≡ cells.old.items ++ cells_in (literal_terms literal)) }
{
    match literal {
        Literal::Atom(head) => {
            let head = blanked_head(head, cells)?;
            Ok(Literal::Atom(head))
        }
        Literal::Absent(head) => {
            let head = blanked_head(head, cells)?;
            Ok(Literal::Absent(head))
        }
        Literal::Cmp { left, op, right } => {
            let left = blanked_term(left, cells)?;
            let right = blanked_term(right, cells)?;
            Ok(Literal::Cmp { left, op, right })
        }
        Literal::Sum { var, a, minus, b } => {
            let a = blanked_term(a, cells)?;
            let b = blanked_term(b, cells)?;
            Ok(Literal::Sum { var, a, minus, b })
        }
    }
}

fn blanked_body(body: LiteralList, cells: &mut CellList) -> Result<LiteralList, NoMemory>
    ensures body { IfOk result (λ new. new ≡ numbered_body (length cells.old.items) body) }
    ensures cells { OnOk result (cells.new.items ≡ cells.old.items ++ cells_in (flat_map literal_terms body)) }
{
    let mut blanked = LiteralList::new(body.allocator());
    for literal in body.into_vec() {
        let literal = blanked_literal(literal, cells)?;
        blanked.push(literal)?;
    }
    Ok(blanked)
}

/// The form of the statement. Its constants are listed.
pub fn blanked(statement: Statement, cells: &mut CellList) -> Result<Statement, NoMemory>
    requires { cells.old.items ≡ [] }
    ensures form { IfOk result (λ new. new ≡ numbered statement) }
    ensures cells { OnOk result (cells.new.items ≡ cells_of statement) }
{
    match statement {
        Statement::Insert { head, body } => {
            let head = blanked_head(head, cells)?;
            let body = blanked_body(body, cells)?;
            Ok(Statement::Insert { head, body })
        }
        Statement::Delete { head, body } => {
            let head = blanked_head(head, cells)?;
            let body = blanked_body(body, cells)?;
            Ok(Statement::Delete { head, body })
        }
        Statement::Replace { gone, come, body } => {
            let gone = blanked_head(gone, cells)?;
            let come = blanked_head(come, cells)?;
            let body = blanked_body(body, cells)?;
            Ok(Statement::Replace { gone, come, body })
        }
        Statement::Require { some, body } => {
            let body = blanked_body(body, cells)?;
            Ok(Statement::Require { some, body })
        }
        Statement::Print { terms, body } => {
            let terms = blanked_terms(terms, cells)?;
            let body = blanked_body(body, cells)?;
            Ok(Statement::Print { terms, body })
        }
    }
}
