//! Checked statements of a form, with constants in the places of their numbers.
ghost use Rattle.std.specs.Prelude.{◌≡◌, [], IsTrue, IfOk, map};
ghost use Rattle.lt_model.specs.Forms.{put as put_cell, on_normal, on_atom, on_test, on_body, filled_stmt};
ghost use Rattle.lt_model.specs.declared.normal.Stmt.TheVariants as stmts;

use crate::{Atom, Body, Stmt, Term, TermList, Test};
use lt_face::items::Items;
use lt_face::key::Key;
use lt_face::memory::NoMemory;
use lt_model::kind::KindList;
use std::alloc::Global;
use std::mem;

/// The cell of this number, from 1; the number itself, where there are fewer.
pub(crate) fn put(cells: &[Key], number: Key) -> Key
    ensures { result ≡ put_cell cells.now number }
{
    let place = number.saturating_sub(1);
    if place >= cells.len() as u128 {
        return number;
    }
    cells[place as usize]
}

/// The term with the constant of its number.
pub(crate) fn filled_term(term: Term, cells: &[Key]) -> Term
    ensures { result ≡ on_normal (put_cell cells.now) term }
{
    match term {
        Term::Var(v) => Term::Var(v),
        Term::Cell(number) => Term::Cell(put(cells, number)),
    }
}

fn filled_terms(alloc: Global, terms: &[Term], cells: &[Key]) -> Result<TermList, NoMemory>
    ensures { IfOk result (λ list. list ≡ map (on_normal (put_cell cells.now)) terms.now) }
{
    let mut list = Items::from_vec(Vec::with_capacity(alloc, terms.len())?);
    for term in terms {
        list.push(filled_term(*term, cells))?;
    }
    Ok(list)
}

fn filled_atom(atom: &Atom, cells: &[Key]) -> Result<Atom, NoMemory>
    ensures { IfOk result (λ new. new ≡ on_atom (put_cell cells.now) atom.now) }
{
    let terms = filled_terms(atom.terms.allocator(), atom.terms.as_slice(), cells)?;
    Ok(Atom {
        relation: atom.relation,
        terms,
    })
}

fn filled_atoms(alloc: Global, atoms: &[Atom], cells: &[Key]) -> Result<Items<Atom>, NoMemory>
    ensures { IfOk result (λ list. list ≡ map (on_atom (put_cell cells.now)) atoms.now) }
{
    let mut list = Items::from_vec(Vec::with_capacity(alloc, atoms.len())?);
    for atom in atoms {
        let new = filled_atom(atom, cells)?;
        list.push(new)?;
    }
    Ok(list)
}

fn filled_test(test: Test, cells: &[Key]) -> Test
    ensures { result ≡ on_test (put_cell cells.now) test }
{
    match test {
        Test::Cmp { left, op, right } => Test::Cmp {
            left: filled_term(left, cells),
            op,
            right: filled_term(right, cells),
        },
        Test::Sum { var, a, minus, b } => Test::Sum {
            var,
            a: filled_term(a, cells),
            minus,
            b: filled_term(b, cells),
        },
    }
}

fn filled_tests(alloc: Global, tests: &[Test], cells: &[Key]) -> Result<Items<Test>, NoMemory>
    ensures { IfOk result (λ list. list ≡ map (on_test (put_cell cells.now)) tests.now) }
{
    let mut list = Items::from_vec(Vec::with_capacity(alloc, tests.len())?);
    for test in tests {
        list.push(filled_test(*test, cells))?;
    }
    Ok(list)
}

fn filled_body(body: &Body, cells: &[Key]) -> Result<Body, NoMemory>
    ensures { IfOk result (λ new. new ≡ on_body (put_cell cells.now) body.now) }
{
    let alloc = body.atoms.allocator();
    let atoms = filled_atoms(alloc, body.atoms.as_slice(), cells)?;
    let absents = filled_atoms(alloc, body.absents.as_slice(), cells)?;
    let tests = filled_tests(alloc, body.tests.as_slice(), cells)?;
    Ok(Body {
        atoms,
        absents,
        tests,
        vars: body.vars,
    })
}

fn filled_replace(
    gone: &Atom,
    come: &Atom,
    keys: u32,
    body: &Body,
    cells: &[Key],
) -> Result<Stmt, NoMemory>
    ensures { IfOk result (λ new. new ≡ stmts.Replace (on_atom (put_cell cells.now) gone.now) (on_atom (put_cell cells.now) come.now) keys (on_body (put_cell cells.now) body.now)) }
{
    let gone = filled_atom(gone, cells)?;
    let come = filled_atom(come, cells)?;
    let body = filled_body(body, cells)?;
    Ok(Stmt::Replace {
        gone,
        come,
        keys,
        body,
    })
}

/// The statement with the k-th of these cells, from 1, wherever it has the constant k.
pub fn filled(stmt: &Stmt, cells: &[Key]) -> Result<Stmt, NoMemory>
    ensures { IfOk result (λ new. new ≡ filled_stmt stmt.now cells.now) }
{
    match stmt {
        Stmt::Insert { head, keys, body } => {
            let head = filled_atom(head, cells)?;
            let body = filled_body(body, cells)?;
            Ok(Stmt::Insert {
                head,
                keys: *keys,
                body,
            })
        }
        Stmt::Delete { head, body } => {
            let head = filled_atom(head, cells)?;
            let body = filled_body(body, cells)?;
            Ok(Stmt::Delete { head, body })
        }
        Stmt::Replace {
            gone,
            come,
            keys,
            body,
        } => filled_replace(gone, come, *keys, body, cells),
        Stmt::Require { some, body } => {
            let body = filled_body(body, cells)?;
            Ok(Stmt::Require { some: *some, body })
        }
        Stmt::Print { terms, kinds, body } => {
            let kinds = KindList::from_kinds(terms.allocator(), kinds.as_slice());
            let terms = filled_terms(terms.allocator(), terms.as_slice(), cells)?;
            let body = filled_body(body, cells)?;
            Ok(Stmt::Print { terms, kinds, body })
        }
    }
}

// ---- the same in a statement that is there, where its lists are as long as those of the form

/// Takes the list away, and leaves an empty one.
pub fn taken<T: Drop>(list: &mut Items<T>) -> Vec<T>
    ensures all { result.items ≡ list.old }
    ensures none { list.new ≡ [] }
{
    let alloc = list.allocator();
    mem::replace(list, Items::new(alloc)).into_vec()
}

fn refill_terms(terms: &mut TermList, of_form: &[Term], cells: &[Key]) -> bool
    ensures { IsTrue result → terms.new ≡ map (on_normal (put_cell cells.now)) of_form.now }
{
    if terms.len() != of_form.len() {
        return false;
    }
    let mut list = taken(terms);
    for i in 0..of_form.len() {
        list[i] = filled_term(of_form[i], cells);
    }
    *terms = Items::from_vec(list);
    true
}

fn refill_tests(tests: &mut Items<Test>, of_form: &[Test], cells: &[Key]) -> bool
    ensures { IsTrue result → tests.new ≡ map (on_test (put_cell cells.now)) of_form.now }
{
    if tests.len() != of_form.len() {
        return false;
    }
    let mut list = taken(tests);
    for i in 0..of_form.len() {
        list[i] = filled_test(of_form[i], cells);
    }
    *tests = Items::from_vec(list);
    true
}

fn refill_atom(atom: &mut Atom, of_form: &Atom, cells: &[Key]) -> bool
    ensures { IsTrue result → atom.new ≡ on_atom (put_cell cells.now) of_form.now }
{
    atom.relation = of_form.relation;
    refill_terms(&mut atom.terms, of_form.terms.as_slice(), cells)
}

fn refill_atoms(atoms: &mut Items<Atom>, of_form: &[Atom], cells: &[Key]) -> bool
    ensures { IsTrue result → atoms.new ≡ map (on_atom (put_cell cells.now)) of_form.now }
{
    if atoms.len() != of_form.len() {
        return false;
    }
    let mut list = taken(atoms);
    for i in 0..of_form.len() {
        if !refill_atom(&mut list[i], &of_form[i], cells) {
            return false;
        }
    }
    *atoms = Items::from_vec(list);
    true
}

fn refill_body(body: &mut Body, of_form: &Body, cells: &[Key]) -> bool
    ensures { IsTrue result → body.new ≡ on_body (put_cell cells.now) of_form.now }
{
    body.vars = of_form.vars;
    if !refill_atoms(&mut body.atoms, of_form.atoms.as_slice(), cells) {
        return false;
    }
    if !refill_atoms(&mut body.absents, of_form.absents.as_slice(), cells) {
        return false;
    }
    refill_tests(&mut body.tests, of_form.tests.as_slice(), cells)
}

fn refill_insert(
    stmt: &mut Stmt,
    of_head: &Atom,
    of_keys: u32,
    of_body: &Body,
    cells: &[Key],
) -> bool
    ensures { IsTrue result → stmt.new ≡ stmts.Insert (on_atom (put_cell cells.now) of_head.now) of_keys (on_body (put_cell cells.now) of_body.now) }
{
    match stmt {
        Stmt::Insert { head, keys, body } => {
            *keys = of_keys;
            if !refill_atom(head, of_head, cells) {
                return false;
            }
            refill_body(body, of_body, cells)
        }
        _ => false,
    }
}

fn refill_delete(stmt: &mut Stmt, of_head: &Atom, of_body: &Body, cells: &[Key]) -> bool
    ensures { IsTrue result → stmt.new ≡ stmts.Delete (on_atom (put_cell cells.now) of_head.now) (on_body (put_cell cells.now) of_body.now) }
{
    match stmt {
        Stmt::Delete { head, body } => {
            if !refill_atom(head, of_head, cells) {
                return false;
            }
            refill_body(body, of_body, cells)
        }
        _ => false,
    }
}

fn refill_replace(
    stmt: &mut Stmt,
    of_gone: &Atom,
    of_come: &Atom,
    of_keys: u32,
    of_body: &Body,
    cells: &[Key],
) -> bool
    ensures { IsTrue result → stmt.new ≡ stmts.Replace (on_atom (put_cell cells.now) of_gone.now) (on_atom (put_cell cells.now) of_come.now) of_keys (on_body (put_cell cells.now) of_body.now) }
{
    match stmt {
        Stmt::Replace {
            gone,
            come,
            keys,
            body,
        } => {
            *keys = of_keys;
            if !refill_atom(gone, of_gone, cells) {
                return false;
            }
            if !refill_atom(come, of_come, cells) {
                return false;
            }
            refill_body(body, of_body, cells)
        }
        _ => false,
    }
}

fn refill_require(stmt: &mut Stmt, of_some: bool, of_body: &Body, cells: &[Key]) -> bool
    ensures { IsTrue result → stmt.new ≡ stmts.Require of_some (on_body (put_cell cells.now) of_body.now) }
{
    match stmt {
        Stmt::Require { some, body } => {
            *some = of_some;
            refill_body(body, of_body, cells)
        }
        _ => false,
    }
}

fn refill_print(
    stmt: &mut Stmt,
    of_terms: &[Term],
    of_kinds: &KindList,
    of_body: &Body,
    cells: &[Key],
) -> bool
    ensures { IsTrue result → stmt.new ≡ stmts.Print (map (on_normal (put_cell cells.now)) of_terms.now) of_kinds.now (on_body (put_cell cells.now) of_body.now) }
{
    match stmt {
        Stmt::Print { terms, kinds, body } => {
            *kinds = KindList::from_kinds(terms.allocator(), of_kinds.as_slice());
            if !refill_terms(terms, of_terms, cells) {
                return false;
            }
            refill_body(body, of_body, cells)
        }
        _ => false,
    }
}

/// Makes the statement that of the form with the k-th of these cells, from 1, wherever the form has the constant k. It takes no
/// memory. False where the statement is another one's; then it is of no use any more.
pub fn refill(stmt: &mut Stmt, of_form: &Stmt, cells: &[Key]) -> bool
    ensures { IsTrue result → stmt.new ≡ filled_stmt of_form.now cells.now }
{
    match of_form {
        Stmt::Insert { head, keys, body } => refill_insert(stmt, head, *keys, body, cells),
        Stmt::Delete { head, body } => refill_delete(stmt, head, body, cells),
        Stmt::Replace {
            gone,
            come,
            keys,
            body,
        } => refill_replace(stmt, gone, come, *keys, body, cells),
        Stmt::Require { some, body } => refill_require(stmt, *some, body, cells),
        Stmt::Print { terms, kinds, body } => refill_print(
            stmt,
            terms.as_slice(),
            kinds,
            body,
            cells,
        ),
    }
}
