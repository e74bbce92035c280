//! The text of batches that insert rows.
use lt_face::NoMemory;
use lt_face::key::Key;
use lt_face::limits::MOST_STATEMENTS;
use lt_input::pieces::{push_all, push_cell};
use lt_model::kind::Kind;
use std::alloc::Global;

// So many statements a program.
const PROGRAM: u64 = MOST_STATEMENTS as u64;

// So many a batch, in 64 programs.
const BATCH: u64 = 64 * PROGRAM;

/// A script of batches, and how many rows they insert.
#[derive(Drop)]
pub struct Inserts {
    pub text: Vec<u8>,
    pub count: u64,
}

// Puts the cells of a row behind a text, with commas.
fn push_cells(text: &mut Vec<u8>, kinds: &[Kind], cells: &[Key]) -> Result<(), NoMemory> {
    let mut first = true;
    for (kind, cell) in kinds.iter().zip(cells) {
        if !first {
            text.extend_from_slice(b", ")?;
        }
        first = false;
        push_cell(text, *kind, *cell)?;
    }
    Ok(())
}

impl Inserts {
    /// No batch.
    pub fn new(alloc: Global) -> Inserts {
        Inserts {
            text: Vec::new(alloc),
            count: 0,
        }
    }

    // Begins a batch and a program, where the row that comes is the first of them.
    fn begin(&mut self) -> Result<(), NoMemory> {
        if self.count % BATCH == 0 {
            self.text.extend_from_slice(b"batch\n")?;
        }
        if self.count % PROGRAM == 0 {
            self.text.extend_from_slice(b"program load\n")?;
        }
        Ok(())
    }

    /// Inserts one row more into this relation, whose columns have these kinds.
    pub fn add(&mut self, relation: &[u8], kinds: &[Kind], cells: &[Key]) -> Result<(), NoMemory> {
        self.begin()?;
        push_all(&mut self.text, &[b"insert ", relation, b"("])?;
        push_cells(&mut self.text, kinds, cells)?;
        self.text.extend_from_slice(b");\n")?;
        self.count = self.count.saturating_add(1);
        self.end()
    }

    // Ends the program and the batch that are full with the last row.
    fn end(&mut self) -> Result<(), NoMemory> {
        if self.count % PROGRAM == 0 {
            self.text.extend_from_slice(b"end;\n")?;
        }
        if self.count % BATCH == 0 {
            self.text.extend_from_slice(b"commit;\n")?;
        }
        Ok(())
    }

    /// Ends the last program and the last batch.
    pub fn close(&mut self) -> Result<(), NoMemory> {
        if self.count % PROGRAM != 0 {
            self.text.extend_from_slice(b"end;\n")?;
        }
        if self.count % BATCH != 0 {
            self.text.extend_from_slice(b"commit;\n")?;
        }
        Ok(())
    }
}
