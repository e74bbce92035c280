//! Room for bytes that is used again.
ghost use Rattle.std.specs.Prelude.{◌≡◌, ◌≤◌, length, drop, OnOk, OnErr};

use lt_face::memory::NoMemory;
use std::alloc::Global;
use std::marker::Model;
use std::mem;

// Room is used again while it is no larger.
const MOST: usize = 65_536;

/// Room for the bytes that are kept next. What lies in it means nothing, and clauses see nothing of it.
#[derive(Drop)]
pub struct Spare {
    bytes: Vec<u8>,
}

impl Model for Spare {
    ghost Value = { Unit {0} };

    ghost view = { λ s. tt };
}

impl Spare {
    pub fn new(alloc: Global) -> Spare {
        Spare {
            bytes: Vec::new(alloc),
        }
    }

    /// Gives up so many bytes at the front. On want of memory they stay.
    pub fn give_up(&mut self, bytes: &mut Vec<u8>, count: usize) -> Result<(), NoMemory>
        requires { count ≤ length bytes.old.items }
        ensures left { OnOk result (bytes.new.items ≡ drop count bytes.old.items) }
        ensures refused { OnErr result (bytes.new.items ≡ bytes.old.items) }
    {
        if bytes.capacity() > MOST {
            let rest = bytes.split_off(count)?;
            *bytes = rest;
            return Ok(());
        }
        let (_, rest) = bytes.as_slice().split_at(count);
        self.bytes.clear();
        self.bytes.extend_from_slice(rest)?;
        mem::swap(bytes, &mut self.bytes);
        Ok(())
    }
}
