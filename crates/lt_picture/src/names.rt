//! The names of the programs that ran, as the report tells them before its traces.
ghost use Rattle.std.specs.Prelude.{◌≡◌, ◌<◌, length};

use crate::lines::{run_of, version_of};
use std::alloc::{AllocError, Global};
use std::collections::BTreeMap;
use std::mem;

/// The names that the lines so far told.
#[derive(Drop)]
pub struct Names<'a> {
    /// The allocator.
    alloc: Global,
    /// Those of the batch whose end hasn't come, in order.
    last: Vec<&'a str>,
    /// Those of each batch that has ended, by its number.
    told: BTreeMap<u32, Vec<&'a str>>,
}

impl<'a> Names<'a> {
    /// Before the first line.
    pub fn new(alloc: Global) -> Names<'a> {
        Names {
            alloc,
            last: Vec::new(alloc),
            told: BTreeMap::new(alloc),
        }
    }

    /// Goes on by a line of the report.
    pub fn take(&mut self, line: &'a str) -> Result<(), AllocError> {
        if let Some(name) = run_of(line) {
            self.last.push(name)?;
        } else if let Some(batch) = version_of(line) {
            let names = mem::replace(&mut self.last, Vec::new(self.alloc));
            self.told.insert(batch, names)?;
        }
        Ok(())
    }

    /// Those of a batch in which so many programs ran, or none, where the report doesn't tell as many.
    pub fn of_batch(&mut self, batch: u32, programs: u32) -> Vec<&'a str>
        ensures { 0 < length result.items → length result.items ≡ programs }
    {
        match self.told.remove(&batch) {
            Some(names) if names.len() == programs as usize => names,
            _ => Vec::new(self.alloc),
        }
    }
}
