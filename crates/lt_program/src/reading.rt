//! Whether a program reads the state that it runs on.
ghost use Rattle.std.specs.Prelude.{◌≡◌, false, nat_lt, length, [], ◌∷◌, if◌then◌else◌};
ghost use Rattle.std.specs.List.{list_any};
ghost use Rattle.std.specs.Option.{option_copied, option_to_list};
ghost use Rattle.lt_face.specs.State.{State};
ghost use Rattle.lt_model.specs.Effect.{is_plain as is_plain_in};
ghost use Rattle.lt_model.specs.Marks.{laid};
ghost use Rattle.lt_model.specs.Run.{run};
ghost use Rattle.lt_program.specs.Alone.{is_refusing};
ghost use Rattle.lt_program.specs.Run.{reads_rows, displacing_heads, is_marked, are_marked as are_marked_in, reads_marked_in};

use crate::slicing::is_plain;
use lt_delta::Marks;
use lt_model::normal::{Atom, Stmt};
use lt_query::body_of;

/// The head whose rows displace others, if the statement has one.
fn keyed_head(stmt: &Stmt) -> Option<&Atom>
    ensures { option_to_list (option_copied result) ≡ displacing_heads stmt.now }
{
    match stmt {
        Stmt::Insert { head, keys, .. } => displacing_head(head, *keys),
        Stmt::Replace { come, keys, .. } => displacing_head(come, *keys),
        _ => None,
    }
}

/// The head, if its relation has value columns.
fn displacing_head(head: &Atom, keys: u32) -> Option<&Atom>
    ensures { option_to_list (option_copied result) ≡ (if is_plain_in head.now keys then [] else head.now ∷ []) }
{
    if is_plain(head, keys) {
        None
    } else {
        Some(head)
    }
}

/// Whether the statement's rows displace others.
fn displaces(stmt: &Stmt) -> bool
    ensures { result ≡ nat_lt 0 (length (displacing_heads stmt.now)) }
{
    keyed_head(stmt).is_some()
}

/// Whether the statement may refuse its program: it is a requirement, or two of its rows may have one key.
pub(crate) fn may_refuse(stmt: &Stmt) -> bool
    ensures { result ≡ is_refusing stmt.now }
{
    match stmt {
        Stmt::Require { .. } => true,
        writing_or_printing => displaces(writing_or_printing),
    }
}

/// Whether the statement reads a relation, looks a row up in one, or displaces rows of one.
pub(crate) fn reads_some(stmt: &Stmt) -> bool
    ensures { result ≡ reads_rows stmt.now }
{
    let body = body_of(stmt);
    body.atoms.len() > 0 || (body.absents.len() > 0 || displaces(stmt))
}

/// Whether some statement reads a relation. A program that reads none does the same on every state.
pub fn reads(prog: &[Stmt]) -> bool
    ensures value { result ≡ list_any reads_rows prog.now }
    ensures same { result ≡ false → (s t : State) → run prog.now s ≡ run prog.now t }
{
    for stmt in prog {
        if reads_some(stmt) {
            return true;
        }
    }
    false
}

/// Whether one of the marks is on the relation.
fn has_mark_on(marks: &Marks, relation: u32) -> bool
    ensures { result ≡ is_marked marks.now relation }
{
    marks.is_on(relation)
}

/// Whether one of the marks is on the relation of one of these atoms.
fn are_marked(atoms: &[Atom], marks: &Marks) -> bool
    ensures { result ≡ are_marked_in marks.now atoms.now }
{
    for atom in atoms {
        if has_mark_on(marks, atom.relation) {
            return true;
        }
    }
    false
}

/// Whether the statement's rows displace others in a relation that one of the marks is on.
fn displaces_marked(stmt: &Stmt, marks: &Marks) -> bool
    ensures { result ≡ are_marked_in marks.now (displacing_heads stmt.now) }
{
    match keyed_head(stmt) {
        Some(head) => has_mark_on(marks, head.relation),
        None => false,
    }
}

/// Whether the statement reads a relation that one of the marks is on, or looks a row up in one.
fn reads_one_marked(stmt: &Stmt, marks: &Marks) -> bool
    ensures { result ≡ reads_marked_in marks.now stmt.now }
{
    let body = body_of(stmt);
    are_marked(body.atoms.as_slice(), marks)
        || (are_marked(body.absents.as_slice(), marks) || displaces_marked(stmt, marks))
}

/// Whether some statement reads a relation that one of the marks is on, or looks a row up in one. A program that reads none does
/// the same where the marks are laid.
pub fn reads_marked(prog: &[Stmt], marks: &Marks) -> bool
    ensures value { result ≡ list_any (reads_marked_in marks.now) prog.now }
    ensures same { result ≡ false → (s : State) → run prog.now s ≡ run prog.now (laid s marks.now) }
{
    for stmt in prog {
        if reads_one_marked(stmt, marks) {
            return true;
        }
    }
    false
}
