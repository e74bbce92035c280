//! Lines that are counted before they are written.
use crate::cells::Cells;
use lt_face::NoMemory;
use lt_input::pieces::{push_all, push_cell, push_number};
use lt_model::syntax::{Head, Term};
use std::alloc::Global;

/// Some lines, each with its line feed.
#[derive(Drop)]
pub struct Lines {
    pub text: Vec<u8>,
    pub count: u64,
}

impl Lines {
    /// No lines.
    pub fn new(alloc: Global) -> Lines {
        Lines {
            text: Vec::new(alloc),
            count: 0,
        }
    }

    /// Puts some words behind what stands on the last line.
    pub fn say(&mut self, words: &[u8]) -> Result<(), NoMemory> {
        self.text.extend_from_slice(words)?;
        Ok(())
    }

    /// Puts these words there, one after another.
    pub fn say_all(&mut self, words: &[&[u8]]) -> Result<(), NoMemory> {
        push_all(&mut self.text, words)
    }

    /// Puts two numbers there, with a space between.
    pub fn say_numbers(&mut self, first: u32, second: u32) -> Result<(), NoMemory> {
        push_number(&mut self.text, first as u64)?;
        self.say(b" ")?;
        push_number(&mut self.text, second as u64)
    }

    /// Puts these words there, and ends the line.
    pub fn say_line(&mut self, words: &[&[u8]]) -> Result<(), NoMemory> {
        self.say_all(words)?;
        self.end()
    }

    /// Ends the last line.
    pub fn end(&mut self) -> Result<(), NoMemory> {
        self.text.extend_from_slice(b"\n")?;
        self.count = self.count.saturating_add(1);
        Ok(())
    }

    /// Puts a term, as it is written.
    pub fn say_term(&mut self, term: &Term, cells: Cells) -> Result<(), NoMemory> {
        match term {
            Term::Name(name) => self.say(name.as_bytes()),
            Term::Cell(kind, cell) => push_cell(&mut self.text, *kind, cells.cell(*cell)),
        }
    }

    /// Puts a relation with its terms, as it is written.
    pub fn say_head(&mut self, head: &Head, cells: Cells) -> Result<(), NoMemory> {
        self.say(head.relation.as_bytes())?;
        let mut before: &[u8] = b"(";
        for term in head.terms.as_slice() {
            self.say(before)?;
            self.say_term(term, cells)?;
            before = b", ";
        }
        self.say(b")")
    }
}
