//! Rows and replies copied.
ghost use Rattle.std.specs.Prelude.{◌≡◌, IfOk};

use lt_face::items::{Items, RowList};
use lt_face::memory::NoMemory;
use lt_face::row::Row;
use lt_model::kind::KindList;
use lt_model::reply::{Printed, Prints, Reply};
use std::alloc::Global;

/// An equal list of rows.
pub fn copied(alloc: Global, rows: &[Row]) -> Result<RowList, NoMemory>
    ensures { IfOk result (λ copy. copy ≡ rows.now) }
{
    let mut copy = Items::from_vec(Vec::with_capacity(alloc, rows.len())?);
    for row in rows {
        copy.push(row.copy_row())?;
    }
    Ok(copy)
}

/// An equal printed list.
fn copied_printed(alloc: Global, printed: &Printed) -> Result<Printed, NoMemory>
    ensures { IfOk result (λ copy. copy ≡ printed.now) }
{
    let rows = copied(alloc, printed.rows.as_slice())?;
    Ok(Printed {
        statement: printed.statement,
        kinds: KindList::from_kinds(alloc, printed.kinds.as_slice()),
        rows,
    })
}

/// Equal printed lists.
fn copied_prints(alloc: Global, prints: &Prints) -> Result<Prints, NoMemory>
    ensures { IfOk result (λ copy. copy ≡ prints.now) }
{
    let mut copy = Items::new(alloc);
    for printed in prints.as_slice() {
        let printed = copied_printed(alloc, printed)?;
        copy.push(printed)?;
    }
    Ok(copy)
}

/// An equal reply.
pub fn copied_reply(alloc: Global, reply: &Reply) -> Result<Reply, NoMemory>
    ensures { IfOk result (λ copy. copy ≡ reply.now) }
{
    match reply {
        Reply::Done(prints) => {
            let prints = copied_prints(alloc, prints)?;
            Ok(Reply::Done(prints))
        }
        Reply::Refused(number) => Ok(Reply::Refused(*number)),
    }
}
