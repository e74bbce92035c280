//! The rows that are searched.
ghost use Rattle.std.specs.Prelude.{IfOk, OnOk};
ghost use Rattle.lt_face.specs.Rows.{IsRowSet};
ghost use Rattle.lt_measure.specs.Built.{IsBuilt};

use lt_face::{Key, NoMemory, Row, RowList};
use std::alloc::Global;

/// How many rows there are for each key of the first level.
pub const ROWS_A_KEY: u32 = 1000;

/// The rows (a, b), ascending, for a from 1 to `keys` and b from 1 to `each`.
pub fn grid(alloc: Global, keys: u32, each: u32) -> Result<RowList, NoMemory>
    ensures { IfOk result (IsRowSet 2) }
{
    let mut rows = RowList::new(alloc);
    for a in 0..keys {
        add_key(alloc, &mut rows, a, each)?;
    }
    Ok(rows)
}

/// The rows of one key, behind those of the keys below it.
fn add_key(alloc: Global, rows: &mut RowList, a: u32, each: u32) -> Result<(), NoMemory>
    requires { IsBuilt rows.old a 0 }
    ensures { OnOk result (IsBuilt rows.new a each) }
{
    for b in 0..each {
        let row = Row::from_cells(alloc, &[a as Key + 1, b as Key + 1]);
        rows.push(row)?;
    }
    Ok(())
}
