//! What a statement does.
ghost use Rattle.std.specs.Prelude.{◌≡◌, map, IfOk};
ghost use Rattle.lt_face.specs.Rows.{IsAscending};

use lt_delta::Marks;
use lt_face::items::{Items, RowList};
use lt_face::memory::NoMemory;
use lt_face::row::Row;
use lt_model::kind::KindList;
use lt_model::mark::Mark;
use std::alloc::Global;

/// Marks, a truth, a printed list, or a clash.
#[derive(Drop)]
pub enum Effect {
    Writes(Marks),
    Requires(bool),
    Prints(KindList, RowList),
    Clashes,
}

/// A mark for each row.
pub fn marked(alloc: Global, relation: u32, plus: bool, rows: &[Row]) -> Result<Marks, NoMemory>
    requires { IsAscending rows.now }
    ensures { IfOk result (λ marks. marks ≡ map (λ row. record { relation = relation; row = row; plus = plus }) rows.now) }
{
    let mut list = Items::new(alloc);
    for row in rows {
        list.push(Mark {
            relation,
            row: row.copy_row(),
            plus,
        })?;
    }
    let marks = Marks::from_list(list)?;
    Ok(marks)
}
