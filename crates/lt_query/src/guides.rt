//! How the atoms are gone through.

ghost use Rattle.std.specs.Prelude.{◌≡◌, ◌+◌, ◌<◌, ◌≤◌, ◌++◌, length, OnOk, IfOk};
ghost use Rattle.std.specs.List.{AllByRecursion};
ghost use Rattle.lt_face.specs.Limits.{most_columns};
ghost use Rattle.lt_model.specs.declared.normal.Atom.{Atom as AtomType};
ghost use Rattle.lt_query.specs.Order.{places_of};
ghost use Rattle.lt_query.specs.Runnable.{IsWidth};
ghost use Rattle.lt_query.specs.Stated.{index_from, column_levels as levels_of_columns, columns_at, sorted_columns as columns_by, guide_of, guides_from};

use crate::places::{Place, origin};
use crate::{Atom, Guide};
use lt_face::items::{Items, Perm};
use lt_face::memory::NoMemory;
use std::alloc::Global;

/// The level of the variable that begins at the place, or how many levels there are.
fn level_of(order: &[usize], place: usize) -> usize
    ensures { result ≡ index_from 0 order.now place }
{
    for l in 0..order.len() {
        if order[l] == place {
            return l;
        }
    }
    order.len()
}

/// The level of each column of an atom whose first place is `from`.
fn column_levels(
    alloc: Global,
    places: &[Place],
    order: &[usize],
    from: usize,
    width: usize,
) -> Result<Items<usize>, NoMemory>
    requires { from + width ≤ length places.now }
    ensures { IfOk result (λ levels. levels ≡ levels_of_columns places.now order.now from width) }
{
    let mut levels = Items::from_vec(Vec::with_capacity(alloc, width)?);
    for column in 0..width {
        levels.push(level_of(order, origin(places, from + column)))?;
    }
    Ok(levels)
}

/// Adds the columns at a level.
fn add_columns_at(columns: &mut Perm, levels: &[usize], level: usize) -> Result<(), NoMemory>
    requires { length levels.now ≤ most_columns }
    ensures { OnOk result (columns.new ≡ columns.old ++ columns_at levels.now level) }
{
    for column in 0..levels.len() {
        if levels[column] == level {
            columns.push(column as u32)?;
        }
    }
    Ok(())
}

/// The columns in the order of their levels, of which there are so many.
fn sorted_columns(alloc: Global, levels: &[usize], count: usize) -> Result<Perm, NoMemory>
    requires { length levels.now ≤ most_columns }
    ensures { IfOk result (λ columns. columns ≡ columns_by levels.now count) }
{
    let mut columns = Items::from_vec(Vec::with_capacity(alloc, levels.len())?);
    for level in 0..count {
        add_columns_at(&mut columns, levels, level)?;
    }
    Ok(columns)
}

/// How an atom is gone through whose first place is `from`.
fn guide(
    alloc: Global,
    atom: &Atom,
    places: &[Place],
    order: &[usize],
    from: usize,
) -> Result<Guide, NoMemory>
    requires within { from + length atom.now.terms ≤ length places.now }
    requires narrow { length atom.now.terms ≤ most_columns }
    ensures { IfOk result (λ guide. guide ≡ guide_of places.now order.now from atom.now) }
{
    let levels = column_levels(alloc, places, order, from, atom.terms.as_slice().len())?;
    let columns = sorted_columns(alloc, levels.as_slice(), order.len())?;
    Ok(Guide {
        relation: atom.relation,
        places: levels,
        columns,
    })
}

/// How each atom is gone through, in text order.
pub fn guides(
    alloc: Global,
    atoms: &[Atom],
    places: &[Place],
    order: &[usize],
) -> Result<Items<Guide>, NoMemory>
    requires text { places.now ≡ places_of atoms.now }
    requires widths { AllByRecursion (λ (atom : AtomType). IsWidth (length atom.terms)) atoms.now }
    ensures { IfOk result (λ guides. guides ≡ guides_from places.now order.now 0 atoms.now) }
{
    let mut guides = Items::from_vec(Vec::with_capacity(alloc, atoms.len())?);
    let mut from = 0;
    for atom in atoms {
        guides.push(guide(alloc, atom, places, order, from)?)?;
        from += atom.terms.as_slice().len();
    }
    Ok(guides)
}
