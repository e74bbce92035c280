//! Edits of a page's rows: made in place where they have one owner, and in a copy where they have more.
ghost use Rattle.std.specs.Prelude.{◌<◌, nat_lt, length, IfOk, IfErr};
ghost use Rattle.lt_face.specs.Rows.{IsAscending};
ghost use Rattle.lt_flat.specs.Flat.{IsFound, IsAbsent};

use crate::copies::{parted, splice_copy};
use crate::entry::{Listed, Put, Taken};
use crate::level::LIMIT;
use lt_face::{Moves, NoMemory, Row};
use std::slice::from_ref;
use std::sync::Arc;

/// So many rows that other sets have, too, are parted in two where a row comes: only one half is then copied later.
const SHARED_LIMIT: usize = 25;

/// Where the row is, or where it would go. The last row is tried first.
fn search(rows: &[Row], row: &Row) -> Result<usize, usize>
    requires rises { IsAscending rows.now }
    requires some { 0 < length rows.now }
    ensures found { IfOk result (IsFound rows.now row.now) }
    ensures absent { IfErr result (IsAbsent rows.now row.now) }
{
    let last = &rows[rows.len() - 1];
    if last.cmp(row).is_lt() {
        return Err(rows.len());
    }
    rows.binary_search(row)
}

impl Listed for Row {
    ghost is_many = { λ n. nat_lt 24 n };

    ghost most = { 65 };

    fn put_among<L>(
        entries: &mut Arc<Vec<Row>>,
        row: &Row,
        made: &mut Moves<L>,
    ) -> Result<Put<Vec<Row>>, NoMemory> {
        let at = match search(entries, row) {
            Ok(_) => return Ok(Put::Was),
            Err(at) => at,
        };
        match Arc::get_mut(entries) {
            Some(alone) => {
                if alone.len() < LIMIT {
                    alone.insert(at, row.copy_row())?;
                    made.tick();
                    return Ok(Put::Fits);
                }
            }
            None => {
                if entries.len() < SHARED_LIMIT {
                    splice_copy(entries, at, at, from_ref(row), made)?;
                    return Ok(Put::Fits);
                }
            }
        }
        let alloc = *entries.allocator();
        let (first, second) = parted(alloc, entries, at, at, from_ref(row), made)?;
        Ok(Put::Halves(first, second))
    }

    fn take_among<L>(
        entries: &mut Arc<Vec<Row>>,
        row: &Row,
        made: &mut Moves<L>,
    ) -> Result<Taken, NoMemory> {
        let at = match search(entries, row) {
            Ok(at) => at,
            Err(_) => return Ok(Taken::Missing),
        };
        if entries.len() == 1 {
            return Ok(Taken::Last);
        }
        match Arc::get_mut(entries) {
            Some(alone) => {
                alone.remove(at);
            }
            None => splice_copy(entries, at, at + 1, &[], made)?,
        }
        Ok(Taken::Out)
    }
}
