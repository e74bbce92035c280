//! Two sorted lists of rows, gone through side by side.
ghost use Rattle.std.specs.Prelude.{◌≡◌, fold, IfOk};
ghost use Rattle.lt_face.specs.Rows.{IsAscending, with_row};
ghost use Rattle.lt_flat.specs.Flat.{kept};

use crate::list::append;
use lt_face::{NoMemory, Row};
use std::alloc::Global;
use std::cmp::Ordering;

/// The rows of both, each once.
pub(crate) fn united(alloc: Global, rows: &[Row], more: &[Row]) -> Result<Vec<Row>, NoMemory>
    requires rows { IsAscending rows.now }
    requires more { IsAscending more.now }
    ensures { IfOk result (λ all. all.items ≡ fold with_row rows.now more.now) }
{
    let mut all = Vec::with_capacity(alloc, rows.len().saturating_add(more.len()))?;
    let mut i = 0;
    let mut j = 0;
    'both: while i < rows.len() && j < more.len() {
        let x = &rows[i];
        let y = &more[j];
        match x.cmp(y) {
            Ordering::Less => {
                all.push(x.copy_row())?;
                i += 1;
            }
            Ordering::Equal => {
                all.push(y.copy_row())?;
                i += 1;
                j += 1;
            }
            Ordering::Greater => {
                all.push(y.copy_row())?;
                j += 1;
            }
        }
    }
    append(&mut all, &rows[i..])?;
    append(&mut all, &more[j..])?;
    Ok(all)
}

/// The rows that aren't among the others.
pub(crate) fn remaining(alloc: Global, rows: &[Row], less: &[Row]) -> Result<Vec<Row>, NoMemory>
    requires rows { IsAscending rows.now }
    requires less { IsAscending less.now }
    ensures { IfOk result (λ left. left.items ≡ kept rows.now less.now) }
{
    let mut left = Vec::with_capacity(alloc, rows.len())?;
    let mut i = 0;
    let mut j = 0;
    'both: while i < rows.len() && j < less.len() {
        let x = &rows[i];
        match x.cmp(&less[j]) {
            Ordering::Less => {
                left.push(x.copy_row())?;
                i += 1;
            }
            Ordering::Equal => {
                i += 1;
                j += 1;
            }
            Ordering::Greater => {
                j += 1;
            }
        }
    }
    append(&mut left, &rows[i..])?;
    Ok(left)
}
