//! Marks laid on the rows of relations.
ghost use Rattle.std.specs.Prelude.{◌≡◌, IfOk, IfErr, OnOk};
ghost use Rattle.lt_face.specs.Rows.{IsAscending};
ghost use Rattle.lt_flat.specs.Flat.{IsFound, IsAbsent};
ghost use Rattle.lt_model.specs.Laws.{Rises};
ghost use Rattle.lt_model.specs.Marks.{write as written, lay as laid_one, laid};
ghost use Rattle.lt_reference.specs.Walk.{bare};

use lt_delta::Marks;
use lt_face::items::{Items, RowList};
use lt_face::memory::NoMemory;
use lt_face::row::Row;
use lt_model::mark::Mark;
use std::alloc::Global;
use std::mem;

/// Where the row is, or where it would go.
fn search(rows: &[Row], row: &Row) -> Result<usize, usize>
    requires { IsAscending rows.now }
    ensures found { IfOk result (IsFound rows.now row.now) }
    ensures absent { IfErr result (IsAbsent rows.now row.now) }
{
    rows.binary_search(row)
}

/// The rows with the mark's row in, or without it.
fn write(rows: RowList, mark: &Mark) -> Result<RowList, NoMemory>
    requires { IsAscending rows }
    ensures { IfOk result (λ new. new ≡ written mark.now rows) }
{
    let mut rows = rows.into_vec();
    match search(&rows, &mark.row) {
        Ok(at) => {
            if !mark.plus {
                rows.remove(at);
            }
        }
        Err(at) => {
            if mark.plus {
                rows.insert(at, mark.row.copy_row())?;
            }
        }
    }
    Ok(Items::from_vec(rows))
}

/// Lays one mark on its relation, if that is there.
fn lay_one(relations: &mut Vec<RowList>, mark: &Mark) -> Result<(), NoMemory>
    requires { Rises (bare relations.old.items) }
    ensures { OnOk result (bare relations.new.items ≡ laid_one (bare relations.old.items) mark.now) }
{
    let at = mark.relation as usize;
    if at < relations.len() {
        let alloc = *relations.allocator();
        let rows = mem::replace(&mut relations[at], Items::new(alloc));
        relations[at] = write(rows, mark)?;
    }
    Ok(())
}

/// Lays marks on their relations.
pub fn lay(relations: &mut Vec<RowList>, marks: &Marks) -> Result<(), NoMemory>
    requires { Rises (bare relations.old.items) }
    ensures { OnOk result (bare relations.new.items ≡ laid (bare relations.old.items) marks.now) }
{
    for i in 0..marks.len() {
        let mark = marks.mark(i);
        lay_one(relations, mark)?;
    }
    Ok(())
}
