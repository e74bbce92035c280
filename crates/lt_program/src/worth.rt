//! Whether a join is worth parts, and how much a run keeps. No clause speaks of it.
use crate::tally::Tally;
use lt_base::Database;
use lt_face::row_set::RowReads;
use lt_model::normal::{Atom, Body, Stmt, Term, Test};
use lt_model::syntax::Op;
use lt_query::{Guide, Planned, Route, body_of};

/// Each relation through which the first level of a join worth parts goes has so many rows at least.
const MANY: usize = 4096;

/// Whether the relation has many rows.
fn is_long(tables: &Database, relation: u32) -> bool {
    match tables.rows(relation) {
        Some(rows) => rows.len() >= MANY,
        None => false,
    }
}

/// The column through which the guide goes at the first level, if there is one.
fn first_column(guide: &Guide) -> Option<usize> {
    let places = guide.places.as_slice();
    for column in 0..places.len() {
        if places[column] == 0 {
            return Some(column);
        }
    }
    None
}

/// Whether the test equates the variable with a constant.
fn equates(test: &Test, v: u32) -> bool {
    match *test {
        Test::Cmp {
            left: Term::Var(u),
            op: Op::Eq,
            right: Term::Cell(_),
        } => u == v,
        Test::Cmp { .. } => false,
        Test::Sum { .. } => false,
    }
}

/// Whether the term has one cell alone, whatever the rows are.
fn is_pinned(body: &Body, term: Term) -> bool {
    let v = match term {
        Term::Cell(_) => return true,
        Term::Var(v) => v,
    };
    for test in body.tests.as_slice() {
        if equates(test, v) {
            return true;
        }
    }
    false
}

/// Whether the atom's column may have many cells.
fn may_have_many(tables: &Database, body: &Body, atom: &Atom, column: usize) -> bool {
    let terms = atom.terms.as_slice();
    column < terms.len() && !is_pinned(body, terms[column]) && is_long(tables, atom.relation)
}

/// Whether the join of the body is worth parts: its first variable may have many keys, and each relation that holds it is long.
pub(crate) fn is_worth(tables: &Database, body: &Body, guides: &[Guide]) -> bool {
    let atoms = body.atoms.as_slice();
    let mut is_held = false;
    for i in 0..atoms.len() {
        if i >= guides.len() {
            return false;
        }
        if let Some(column) = first_column(&guides[i]) {
            if !may_have_many(tables, body, &atoms[i], column) {
                return false;
            }
            is_held = true;
        }
    }
    is_held
}

/// Whether the statement finds all answers of its body, and not whether there is one.
fn finds_all(stmt: &Stmt) -> bool {
    match stmt {
        Stmt::Require { some: _, body: _ } => false,
        _writing_or_printing => true,
    }
}

/// Whether a join of the program is worth parts on the database.
pub fn has_long_join(prog: &Planned, base: &Database) -> bool {
    let stmts = prog.statements();
    let routes = prog.routes();
    for i in 0..stmts.len() {
        if i >= routes.len() {
            return false;
        }
        let route: &Route = &routes[i];
        let stmt = &stmts[i];
        if finds_all(stmt) && is_worth(base, body_of(stmt), route.guides.as_slice()) {
            return true;
        }
    }
    false
}

/// How much the certificates of the run keep.
pub fn weight_of(run: &Tally) -> usize {
    let mut size: usize = 0;
    for shared in run.parts() {
        size = size.saturating_add(shared.part().certificate().weight());
    }
    size
}
