//! Rows that ascend strictly because each is compared with the last.
ghost use Rattle.std.specs.Prelude.{◌≡◌, ◌≤◌, ◌+◌, List, ℕ, Bool, true, IsTrue, length, IfSome};
ghost use Rattle.std.specs.List.{AllByRecursion};
ghost use Rattle.std.specs.declared.cmp.Ordering.TheVariants.{Less};
ghost use Rattle.lt_face.specs.Rows.{IsAscending, row_cmp};

use crate::items::RowList;
use crate::memory::NoMemory;
use crate::row::Row;

/// Whether the row is above all of the rows.
fn is_above(rows: &[Row], row: &Row) -> bool
    requires { IsAscending rows.now }
    ensures { IsTrue result → AllByRecursion (λ other. row_cmp other row.now ≡ Less) rows.now }
{
    match rows.last() {
        Some(last) => last.cmp(row).is_lt(),
        None => true,
    }
}

/// Puts the row behind the others, where there is one and it is above them.
pub(crate) fn push_above(rows: &mut RowList, row: Option<&Row>) -> Result<(), NoMemory>
    requires { IsAscending rows.old }
    ensures few { length rows.new ≤ length rows.old + 1 }
    ensures rises { IsAscending rows.new }
    ensures each { (p : List ℕ → Bool) → AllByRecursion (λ r. p r ≡ true) rows.old → IfSome row.entry (λ row. p row.now ≡ true) → AllByRecursion (λ r. p r ≡ true) rows.new }
{
    let Some(row) = row else {
        return Ok(());
    };
    if !is_above(rows.as_slice(), row) {
        return Ok(());
    }
    rows.push(row.copy_row())?;
    Ok(())
}
