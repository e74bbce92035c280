//! The blocks of a trace that comes in pieces.
ghost use Rattle.std.specs.Prelude.{◌≡◌, ◌↔◌, IsTrue, ◌≤◌, ◌<◌, ◌+◌, ◌^◌, ◌++◌, ◌∷◌, [], ℕ, List, take, length, IfOk, OnOk};
ghost use Rattle.lt_blocks.specs.Blocks.{IsBadLine};
ghost use Rattle.lt_blocks.specs.Reading.{HasMore, HasRead};
ghost use Rattle.lt_blocks.specs.declared.reader.Stage.TheVariants as stages;

use crate::block::Block;
use crate::words::{Header, Line, entry_of, line_of};
use lt_batch::Written;
use lt_face::items::Items;
use lt_face::memory::NoMemory;
use std::alloc::Global;
use std::mem;

/// How far the blocks of a trace were read.
#[derive(Clone, Copy, Debug, PartialEq, Eq)]
pub enum Stage {
    /// More may come.
    Reading,
    /// The line `script` was read, behind which the script begins.
    Script,
    /// A line was read that isn't of the form wanted there.
    Bad,
}

/// The blocks that were read, and the lines of the one that isn't complete.
#[derive(Drop)]
pub struct Reader {
    blocks: Vec<Block>,
    header: Header,
    entries: Vec<Written>,
    missing: u32,
    line: Vec<u8>,
    number: u64,
    stage: Stage,
}

impl Reader {
    /// Before the first byte. It takes no memory.
    pub fn new(alloc: Global) -> Reader
        ensures stage { result.stage ≡ stages.Reading }
        ensures read { HasRead result [] }
        ensures number { result.number ≡ 1 }
    {
        Reader {
            blocks: Vec::new(alloc),
            header: Header {
                batch: 0,
                programs: 0,
                entries: 0,
            },
            entries: Vec::new(alloc),
            missing: 0,
            line: Vec::new(alloc),
            number: 1,
            stage: Stage::Reading,
        }
    }

    /// How far the blocks were read.
    pub fn stage(&self) -> Stage
        ensures { result ≡ self.now.stage }
    {
        self.stage
    }

    /// The blocks that were read.
    pub fn into_blocks(self) -> Vec<Block>
        ensures { result ≡ self.blocks }
    {
        let Reader { blocks, .. } = self;
        blocks
    }

    /// The line, from 1 on, that isn't of the form wanted there, or is missing where no more comes.
    pub fn bad_line(&self) -> u64
        ensures number { result ≡ self.now.number }
        ensures ended { self.now.stage ≡ stages.Reading → (bytes : List ℕ) → HasRead self.now bytes → IsBadLine bytes result }
        ensures bad { self.now.stage ≡ stages.Bad → (bytes more : List ℕ) → HasRead self.now bytes → IsBadLine (bytes ++ more) result }
    {
        self.number
    }

    // The next line begins. A block that is complete is kept.
    fn begin_line(&mut self, alloc: Global) -> Result<(), NoMemory>
        requires { self.old.number + 1 < 2 ^ 64 }
        ensures read { OnOk result ((bytes : List ℕ) → HasMore self.old bytes → HasRead self.new bytes) }
        ensures number { OnOk result (self.new.number ≡ self.old.number + 1) }
    {
        self.number += 1;
        self.line.clear();
        if self.missing > 0 {
            return Ok(());
        }
        let entries = mem::replace(&mut self.entries, Vec::new(alloc));
        self.blocks.push(Block {
            number: u64::from(self.header.batch),
            programs: self.header.programs,
            entries: Items::from_vec(entries),
        })?;
        Ok(())
    }

    // A line has ended inside a block.
    fn end_entry(&mut self, alloc: Global) -> Result<(), NoMemory>
        requires stage { self.old.stage ≡ stages.Reading }
        requires missing { 0 < self.old.missing }
        requires number { self.old.number + 1 < 2 ^ 64 }
        ensures read { OnOk result ((bytes : List ℕ) → HasRead self.old bytes → HasRead self.new (bytes ++ 10 ∷ [])) }
        ensures number { OnOk result (self.new.number ≤ self.old.number + 1) }
    {
        let Some(entry) = entry_of(&self.line) else {
            self.stage = Stage::Bad;
            return Ok(());
        };
        self.entries.push(entry)?;
        self.missing -= 1;
        self.begin_line(alloc)?;
        Ok(())
    }

    // A line has ended between two blocks.
    fn end_between(&mut self, alloc: Global) -> Result<(), NoMemory>
        requires stage { self.old.stage ≡ stages.Reading }
        requires missing { self.old.missing ≡ 0 }
        requires number { self.old.number + 1 < 2 ^ 64 }
        ensures read { OnOk result ((bytes : List ℕ) → HasRead self.old bytes → HasRead self.new (bytes ++ 10 ∷ [])) }
        ensures number { OnOk result (self.new.number ≤ self.old.number + 1) }
    {
        match line_of(&self.line) {
            Line::Header(header) => {
                self.header = header;
                self.missing = header.entries;
                self.begin_line(alloc)?;
                Ok(())
            }
            Line::Script => {
                self.stage = Stage::Script;
                Ok(())
            }
            Line::Other => {
                self.stage = Stage::Bad;
                Ok(())
            }
        }
    }

    // A line has ended.
    fn end_line(&mut self, alloc: Global) -> Result<(), NoMemory>
        requires stage { self.old.stage ≡ stages.Reading }
        requires number { self.old.number + 1 < 2 ^ 64 }
        ensures read { OnOk result ((bytes : List ℕ) → HasRead self.old bytes → HasRead self.new (bytes ++ 10 ∷ [])) }
        ensures number { OnOk result (self.new.number ≤ self.old.number + 1) }
    {
        if self.missing > 0 {
            self.end_entry(alloc)?;
            return Ok(());
        }
        self.end_between(alloc)?;
        Ok(())
    }

    // Whether more may come.
    fn is_reading(&self) -> bool
        ensures { IsTrue result ↔ (self.now.stage ≡ stages.Reading) }
    {
        match self.stage {
            Stage::Reading => true,
            Stage::Script => false,
            Stage::Bad => false,
        }
    }

    // Reads a byte.
    fn take_byte(&mut self, alloc: Global, byte: u8) -> Result<(), NoMemory>
        requires stage { self.old.stage ≡ stages.Reading }
        requires number { self.old.number + 1 < 2 ^ 64 }
        ensures read { OnOk result ((bytes : List ℕ) → HasRead self.old bytes → HasRead self.new (bytes ++ byte ∷ [])) }
        ensures number { OnOk result (self.new.number ≤ self.old.number + 1) }
    {
        if byte == b'\n' {
            self.end_line(alloc)?;
            return Ok(());
        }
        self.line.push(byte)?;
        Ok(())
    }

    /// Reads these bytes, and answers how many of them it has read: all, unless the line `script` or a line that isn't of the
    /// form wanted there has ended.
    pub fn push(&mut self, alloc: Global, piece: &[u8]) -> Result<usize, NoMemory>
        requires stage { self.old.stage ≡ stages.Reading }
        requires number { self.old.number + length piece.now < 2 ^ 64 }
        ensures within { IfOk result (λ read. read ≤ length piece.now) }
        ensures all { IfOk result (λ read. self.new.stage ≡ stages.Reading → read ≡ length piece.now) }
        ensures read { IfOk result (λ read. (bytes : List ℕ) → HasRead self.old bytes → HasRead self.new (bytes ++ take read piece.now)) }
        ensures number { OnOk result (self.new.number ≤ self.old.number + length piece.now) }
    {
        'bytes: for (i, byte) in piece.iter().enumerate() {
            self.take_byte(alloc, *byte)?;
            let more = self.is_reading();
            if !more {
                return Ok(i + 1);
            }
        }
        Ok(piece.len())
    }
}
