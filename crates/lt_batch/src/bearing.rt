//! Whether marks have a bearing on a program: whether a row that one of them is on may be one that the program reads.
ghost use Rattle.std.specs.Prelude.{◌≡◌, ◌≤◌, false, length, take};
ghost use Rattle.std.specs.List.{list_any};
ghost use Rattle.lt_face.specs.State.{State};
ghost use Rattle.lt_model.specs.Marks.{laid};
ghost use Rattle.lt_model.specs.Run.{run};
ghost use Rattle.lt_batch.specs.Bearing.{may_be as may_have, may_be_of as may_be_row, bears_on as bears, bears_on_atoms as bears_atoms, bears_on_coming as bears_coming, bears_on_head as bears_head, bears_on_some as bears_some};

use lt_delta::Marks;
use lt_face::key::Key;
use lt_face::row::Row;
use lt_model::mark::Mark;
use lt_model::normal::{Atom, Stmt, Term};
use lt_query::body_of;

/// Whether the term may have the cell: a constant has its own alone.
fn may_be(term: Term, cell: Key) -> bool
    ensures { result ≡ may_have term cell }
{
    match term {
        Term::Cell(own) => own == cell,
        Term::Var(_) => true,
    }
}

/// Whether the row may be the cells of the terms.
fn may_be_of(terms: &[Term], row: &Row) -> bool
    ensures { result ≡ may_be_row terms.now row.now }
{
    for i in 0..terms.len() {
        if i >= row.width() {
            return true;
        }
        if !may_be(terms[i], row.cell(i)) {
            return false;
        }
    }
    true
}

/// Whether the mark's row may be of one of the atoms.
fn bears_on_atoms(mark: &Mark, atoms: &[Atom]) -> bool
    ensures { result ≡ bears_atoms mark.now atoms.now }
{
    for atom in atoms {
        if mark.relation == atom.relation && may_be_of(atom.terms.as_slice(), &mark.row) {
            return true;
        }
    }
    false
}

/// The first terms, or all of them.
fn first_terms(terms: &[Term], count: usize) -> &[Term]
    ensures { result.now ≡ take count terms.now }
{
    if count >= terms.len() {
        return terms;
    }
    &terms[..count]
}

/// Whether the mark's row may have the key of a row of the head, whose relation has value columns.
fn bears_on_head(mark: &Mark, keys: u32, head: &Atom) -> bool
    ensures { result ≡ bears_head mark.now keys head.now }
{
    let terms = head.terms.as_slice();
    if keys as usize == terms.len() || mark.relation != head.relation {
        return false;
    }
    may_be_of(first_terms(terms, keys as usize), &mark.row)
}

/// Whether the statement may displace the mark's row.
fn bears_on_coming(mark: &Mark, stmt: &Stmt) -> bool
    ensures { result ≡ bears_coming mark.now stmt.now }
{
    match stmt {
        Stmt::Insert {
            head,
            keys,
            body: _,
        } => bears_on_head(mark, *keys, head),
        Stmt::Replace {
            gone: _,
            come,
            keys,
            body: _,
        } => bears_on_head(mark, *keys, come),
        _ => false,
    }
}

/// Whether the statement may read the mark's row, look it up, or displace it.
fn bears_on(mark: &Mark, stmt: &Stmt) -> bool
    ensures { result ≡ bears mark.now stmt.now }
{
    let body = body_of(stmt);
    bears_on_atoms(mark, body.atoms.as_slice())
        || (bears_on_atoms(mark, body.absents.as_slice()) || bears_on_coming(mark, stmt))
}

/// Whether one of the statements may.
fn bears_on_some(prog: &[Stmt], mark: &Mark) -> bool
    ensures { result ≡ bears_some prog.now mark.now }
{
    for stmt in prog {
        if bears_on(mark, stmt) {
            return true;
        }
    }
    false
}

/// Whether the program may read a row that one of the marks is on, look it up, or displace it, as far as its constants tell. A program
/// that doesn't does the same where the marks are laid.
pub(crate) fn bear_on(prog: &[Stmt], marks: &Marks) -> bool
    ensures value { result ≡ list_any (bears_some prog.now) marks.now }
    ensures same { result ≡ false → (s : State) → run prog.now s ≡ run prog.now (laid s marks.now) }
{
    for i in 0..marks.len() {
        if bears_on_some(prog, marks.mark(i)) {
            return true;
        }
    }
    false
}
