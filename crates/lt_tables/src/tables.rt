//! Rows from and to files of comma-separated values, by the crate `csv`.
use crate::table_rows::TableRows;
use csv::{ByteRecord, Reader, ReaderBuilder, WriterBuilder};
use itoa::Buffer;
use lt_face::NoMemory;
use lt_face::key::Key;
use lt_face::row_set::RowReads;
use lt_face::walk::RowWalk;
use lt_input::pieces::push_all;
use lt_model::kind::Kind;
use lt_values::{cell_of_int, cell_of_sym, cell_text};
use std::alloc::Global;
use std::io::{Read, Write};
use std::str;

/// Why rows weren't taken from a file, or written to one.
#[derive(Drop)]
pub enum TableError {
    NoMemory,
    /// The file can't be read or written.
    File,
    /// Some cells don't fit, as these words say.
    Cells(Vec<u8>),
}

impl From<NoMemory> for TableError {
    fn from(_: NoMemory) -> TableError {
        TableError::NoMemory
    }
}

impl From<std::alloc::AllocError> for TableError {
    fn from(_: std::alloc::AllocError) -> TableError {
        TableError::NoMemory
    }
}

impl From<csv::Error> for TableError {
    fn from(error: csv::Error) -> TableError {
        match error.kind() {
            csv::ErrorKind::OutOfMemory => TableError::NoMemory,
            _ => TableError::File,
        }
    }
}

// At most so many cells that don't fit are named.
const NAMED: u64 = 8;

// The cell that a field stands for, where it has this kind.
fn cell_of(kind: Kind, field: &[u8]) -> Option<Key> {
    match kind {
        Kind::Sym => cell_of_sym(field),
        Kind::Int => {
            let text = str::from_utf8(field).ok()?;
            let number = text.parse::<i64>().ok()?;
            Some(cell_of_int(number))
        }
    }
}

// Says of a field that it doesn't fit, by the numbers of its line and of its column.
fn push_misfit(
    told: &mut Vec<u8>,
    line: u64,
    column: u64,
    field: Option<&[u8]>,
) -> Result<(), NoMemory> {
    let (mut first, mut second) = (Buffer::new(), Buffer::new());
    let line = first.format(line).as_bytes();
    let column = second.format(column).as_bytes();
    push_all(told, &[b" line ", line, b" column ", column])?;
    match field {
        Some(field) => push_all(told, &[b" \"", field, b"\","]),
        None => push_all(told, &[b" is missing,"]),
    }
}

// What was read of a file: its rows, and which cells don't fit.
#[derive(Drop)]
struct Taken {
    rows: TableRows,
    cells: Vec<Key>,
    misfits: u64,
    told: Vec<u8>,
}

impl Taken {
    // Takes a cell, or says that it doesn't fit.
    fn take_cell(
        &mut self,
        line: u64,
        column: usize,
        kind: Option<Kind>,
        field: Option<&[u8]>,
    ) -> Result<(), NoMemory> {
        let cell = match (kind, field) {
            (Some(kind), Some(field)) => cell_of(kind, field),
            _ => None,
        };
        if let Some(cell) = cell {
            self.cells.push(cell)?;
            return Ok(());
        }
        self.misfits = self.misfits.saturating_add(1);
        if self.misfits <= NAMED {
            let number = (column as u64).saturating_add(1);
            push_misfit(&mut self.told, line, number, field)?;
        }
        Ok(())
    }

    // Takes a row, or says which of its cells don't fit.
    fn take(&mut self, kinds: &[Kind], row: &ByteRecord) -> Result<(), NoMemory> {
        let line = match row.position() {
            Some(position) => position.line(),
            None => 0,
        };
        self.cells.clear();
        let columns = kinds.len().max(row.len());
        for column in 0..columns {
            self.take_cell(line, column, kinds.get(column).copied(), row.get(column))?;
        }
        if self.misfits == 0 {
            self.rows.add(&self.cells)?;
        }
        Ok(())
    }
}

// Reads all rows.
fn read_rows<F: Read + Drop>(
    alloc: Global,
    reader: &mut Reader<F>,
    kinds: &[Kind],
    keys: u32,
) -> Result<TableRows, TableError> {
    let mut row = ByteRecord::new(alloc);
    let mut taken = Taken {
        rows: TableRows::new(alloc, kinds.len(), keys),
        cells: Vec::new(alloc),
        misfits: 0,
        told: Vec::new(alloc),
    };
    for _ in 0..u64::MAX {
        if !reader.read_byte_record(&mut row)? {
            break;
        }
        taken.take(kinds, &row)?;
    }
    if taken.misfits > 0 {
        return Err(TableError::Cells(taken.told));
    }
    taken.rows.sort()?;
    Ok(taken.rows)
}

/// The rows of a file, for a relation whose columns have these kinds, with so many key columns. Where a cell doesn't fit there are
/// none.
pub fn rows_of<F: Read + Drop>(
    alloc: Global,
    file: F,
    kinds: &[Kind],
    keys: u32,
) -> Result<TableRows, TableError> {
    let mut reader = ReaderBuilder::new()
        .has_headers(false)
        .flexible(true)
        .from_reader(alloc, file);
    read_rows(alloc, &mut reader, kinds, keys)
}

/// Writes rows, whose columns have these kinds, to a file; how many there are.
pub fn export<W: Write + Drop, R: RowReads>(
    alloc: Global,
    file: W,
    kinds: &[Kind],
    rows: &R,
) -> Result<u64, TableError> {
    let mut writer = WriterBuilder::new().from_writer(file);
    let mut walk = RowWalk::over(alloc, rows);
    let mut count = 0u64;
    for _ in 0..walk.len() {
        let Some(row) = walk.next_row() else {
            break;
        };
        for (kind, cell) in kinds.iter().zip(row.cells()) {
            writer.write_field(cell_text(*kind, (*cell).max(1)).as_bytes())?;
        }
        writer.end_record()?;
        count = count.saturating_add(1);
    }
    writer.flush()?;
    Ok(count)
}
