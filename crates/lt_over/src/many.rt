//! Edits of a set by many rows.
ghost use Rattle.std.specs.Prelude.{◌≡◌, fold, OnOk};
ghost use Rattle.std.specs.List.{AllByRecursion};
ghost use Rattle.lt_face.specs.Rows.{IsRow, with_row};
ghost use Rattle.lt_flat.specs.Flat.{kept};

use lt_face::{NoMemory, Row, RowSet};

/// Takes rows out of a set.
pub(crate) fn take_all<S: RowSet>(set: &mut S, rows: &[Row]) -> Result<(), NoMemory>
    ensures rows { OnOk result (S.rows set.new ≡ kept (S.rows set.old) rows.now) }
    ensures width { S.width_of set.new ≡ S.width_of set.old }
{
    for row in rows {
        set.remove(row)?;
    }
    Ok(())
}

/// Puts rows into a set.
pub(crate) fn put_all<S: RowSet>(set: &mut S, rows: &[Row]) -> Result<(), NoMemory>
    requires { AllByRecursion (IsRow (S.width_of set.old)) rows.now }
    ensures rows { OnOk result (S.rows set.new ≡ fold with_row (S.rows set.old) rows.now) }
    ensures width { S.width_of set.new ≡ S.width_of set.old }
{
    for row in rows {
        set.insert(row.copy_row())?;
    }
    Ok(())
}
