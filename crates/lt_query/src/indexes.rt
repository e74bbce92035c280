//! Names of indexes, collected from guides.
ghost use Rattle.std.specs.Prelude.{◌≡◌, ◌≤◌, IfOk, OnOk, map};
ghost use Rattle.lt_face.specs.Limits.{most_columns};
ghost use Rattle.lt_query.specs.Lists.{below};
ghost use Rattle.lt_query.specs.Needs.{body_of as body_in, index_of, first_index, same_name, has_name as has_this_name, with_name, with_names, firsts_of};
ghost use Rattle.lt_query.specs.Planned.{HaveWidths};
ghost use Rattle.lt_query.specs.Runnable.{AreAtomsWide};

use crate::{Atom, Body, Guide, IndexName, Perms, Stmt};
use lt_face::items::Perm;
use lt_face::memory::NoMemory;
use std::alloc::Global;

/// The statement's body.
pub fn body_of(stmt: &Stmt) -> &Body
    ensures { result.now ≡ body_in stmt.now }
{
    match stmt {
        Stmt::Insert { body, .. } => body,
        Stmt::Delete { body, .. } => body,
        Stmt::Replace { body, .. } => body,
        Stmt::Require { body, .. } => body,
        Stmt::Print { body, .. } => body,
    }
}

/// Whether this is the index that the guide goes through.
fn is_index_of(name: &IndexName, guide: &Guide) -> bool
    ensures { result ≡ same_name (index_of guide.now) name.now }
{
    name.relation == guide.relation && name.columns.as_slice() == guide.columns.as_slice()
}

/// Whether the guide's index is one of these.
fn has_name(names: &[IndexName], guide: &Guide) -> bool
    ensures { result ≡ has_this_name names.now (index_of guide.now) }
{
    for name in names {
        if is_index_of(name, guide) {
            return true;
        }
    }
    false
}

/// Adds the index of each guide that isn't there yet.
pub(crate) fn add_names(names: &mut Perms, guides: &[Guide]) -> Result<(), NoMemory>
    ensures { OnOk result (names.new ≡ with_names names.old (map index_of guides.now)) }
{
    for guide in guides {
        if !has_name(names.as_slice(), guide) {
            let columns = guide.columns.copy()?;
            let relation = guide.relation;
            names.push(IndexName { relation, columns })?;
        }
    }
    Ok(())
}

/// So many columns, in their own order.
pub fn own_columns(alloc: Global, width: usize) -> Result<Perm, NoMemory>
    requires { width ≤ most_columns }
    ensures { IfOk result (λ columns. columns ≡ below width) }
{
    let mut columns = Perm::new(alloc);
    for column in 0..width {
        columns.push(column as u32)?;
    }
    Ok(columns)
}

/// Whether the name is one of these.
fn has_this(names: &[IndexName], name: &IndexName) -> bool
    ensures { result ≡ has_this_name names.now name.now }
{
    for other in names {
        if other.relation == name.relation && other.columns.as_slice() == name.columns.as_slice() {
            return true;
        }
    }
    false
}

/// Adds the name, if it isn't there yet.
fn add_name(names: &mut Perms, name: IndexName) -> Result<(), NoMemory>
    ensures { OnOk result (names.new ≡ with_name names.old name) }
{
    if has_this(names.as_slice(), &name) {
        return Ok(());
    }
    names.push(name)?;
    Ok(())
}

/// Adds the first index of each of these atoms' relations, where it isn't there yet.
fn add_firsts_of(alloc: Global, names: &mut Perms, absents: &[Atom]) -> Result<(), NoMemory>
    requires { AreAtomsWide absents.now }
    ensures { OnOk result (names.new ≡ with_names names.old (map first_index absents.now)) }
{
    for atom in absents {
        let columns = own_columns(alloc, atom.terms.len())?;
        let relation = atom.relation;
        add_name(names, IndexName { relation, columns })?;
    }
    Ok(())
}

/// Adds the first index of each negated atom's relation, where it isn't there yet.
pub(crate) fn add_firsts(alloc: Global, names: &mut Perms, stmts: &[Stmt]) -> Result<(), NoMemory>
    requires { HaveWidths stmts.now }
    ensures { OnOk result (names.new ≡ with_names names.old (firsts_of stmts.now)) }
{
    for stmt in stmts {
        add_firsts_of(alloc, names, body_of(stmt).absents.as_slice())?;
    }
    Ok(())
}
