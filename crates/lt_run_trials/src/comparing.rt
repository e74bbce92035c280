//! Replies, prints, rows, marks and journals, compared.
use lt_base::Database;
use lt_circuit::{Entry, Event, JobName};
use lt_delta::{Mark, Marks};
use lt_face::RowReads;
use lt_face::key::Key;
use lt_face::row::Row;
use lt_model::reply::{Printed, Reply};
use lt_values::cell_of_int;
use std::alloc::Global;

/// The row of an int.
pub(crate) fn int_row(alloc: Global, n: i64) -> Row {
    Row::from_cells(alloc, &[cell_of_int(n)])
}

/// Whether these are the rows of the ints.
pub(crate) fn are_int_rows(alloc: Global, rows: &[Row], ints: &[i64]) -> bool {
    if rows.len() != ints.len() {
        return false;
    }
    for (i, n) in ints.iter().enumerate() {
        if rows[i] != int_row(alloc, *n) {
            return false;
        }
    }
    true
}

/// Whether the reply is one print of these ints.
pub(crate) fn is_print(alloc: Global, reply: &Reply, ints: &[i64]) -> bool {
    match reply {
        Reply::Done(prints) => match prints.as_slice() {
            [print] => are_int_rows(alloc, print.rows.as_slice(), ints),
            _ => false,
        },
        Reply::Refused(_) => false,
    }
}

/// Whether it is the mark of this cell in the relation 0.
fn is_mark(alloc: Global, mark: &Mark, cell: Key, plus: bool) -> bool {
    mark.relation == 0 && mark.plus == plus && mark.row == Row::from_cells(alloc, &[cell])
}

/// Whether these are the marks, by cell in the relation 0 and sign.
pub(crate) fn are_marks(alloc: Global, marks: &Marks, wanted: &[(Key, bool)]) -> bool {
    if marks.len() != wanted.len() {
        return false;
    }
    for (i, want) in wanted.iter().enumerate() {
        if !is_mark(alloc, marks.mark(i), want.0, want.1) {
            return false;
        }
    }
    true
}

fn is_same_print(a: &Printed, b: &Printed) -> bool {
    a.statement == b.statement
        && a.kinds.as_slice() == b.kinds.as_slice()
        && a.rows.as_slice() == b.rows.as_slice()
}

fn are_same_prints(a: &[Printed], b: &[Printed]) -> bool {
    if a.len() != b.len() {
        return false;
    }
    for (i, x) in a.iter().enumerate() {
        if !is_same_print(x, &b[i]) {
            return false;
        }
    }
    true
}

/// Whether two replies are the same.
pub(crate) fn is_same_reply(a: &Reply, b: &Reply) -> bool {
    match (a, b) {
        (Reply::Done(prints), Reply::Done(others)) => {
            are_same_prints(prints.as_slice(), others.as_slice())
        }
        (Reply::Refused(j), Reply::Refused(k)) => *j == *k,
        _ => false,
    }
}

/// How many rows a relation has.
pub(crate) fn count(db: &Database, relation: u32) -> usize {
    match db.rows(relation) {
        Some(rows) => rows.len(),
        None => 0,
    }
}

/// Whether the entry is this worker's, with this code: three times the job's, and 1 more where the job was done, 2 more where it was
/// given up.
fn is_entry(entry: &Entry, worker: u32, code: u32) -> bool {
    let event = match code % 3 {
        0 => Event::Claim,
        1 => Event::Finish,
        _ => Event::Abandon,
    };
    entry.worker == worker && entry.job == JobName::of(code / 3) && entry.event == event
}

/// Whether these are the workers and codes of the entries.
pub(crate) fn is_journal(journal: &[Entry], events: &[(u32, u32)]) -> bool {
    if journal.len() != events.len() {
        return false;
    }
    for (i, (worker, code)) in events.iter().enumerate() {
        if !is_entry(&journal[i], *worker, *code) {
            return false;
        }
    }
    true
}
