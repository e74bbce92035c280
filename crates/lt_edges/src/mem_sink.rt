//! A sink in memory with a limited room that fails as it is told.
ghost use Rattle.std.specs.Prelude.{◌≡◌, ◌<◌, ◌≤◌, ◌-◌, ◌^◌, ◌↔◌, ◌⊎◌, length, Some, IfOk, OnOk, OnErr, IsErr, Contains};
ghost use Rattle.std.specs.Io.KnownBytes.{Keeps, WriteAppends};
ghost use Rattle.lt_edges.specs.Causes.{HasCause, Takes, one_more};
ghost use Rattle.lt_edges.specs.Memory.{fresh_output};

use crate::sink::Sink;
use crate::source::Failed;
use lt_face::memory::NoMemory;
use std::alloc::Global;
use std::marker::Model;

/// Keeps the bytes that it takes, up to its room, with faults at the calls that are numbered.
#[derive(Drop)]
pub struct MemSink {
    bytes: Vec<u8>,
    room: usize,
    failing: Vec<u64>,
    calls: u64,
    faults: u64,
}

impl Model for MemSink {
    ghost use Rattle.std.specs.Prelude.{◌+◌, ◌≤◌, length, vec_capacity};
    ghost use Rattle.lt_edges.specs.Memory.{Output};

    ghost Value = { Output };

    ghost view = { λ s. record { holds = s.bytes.items; room = s.room; failing = s.failing.items; calls = s.calls; faults = s.faults } };

    ghost invariant = { λ s. length s.bytes.items + s.room ≤ vec_capacity s.bytes };
}

impl MemSink {
    /// An empty sink with memory for `room` bytes. The calls numbered in `failing`, from 1 on, fail.
    pub fn new(alloc: Global, room: usize, failing: &[u64]) -> Result<MemSink, NoMemory>
        ensures { IfOk result (λ sink. sink ≡ fresh_output room failing.now) }
    {
        Ok(MemSink {
            bytes: Vec::with_capacity(alloc, room)?,
            room,
            failing: failing.to_vec(alloc)?,
            calls: 0,
            faults: 0,
        })
    }

    /// The bytes taken so far.
    pub fn bytes(&self) -> &[u8]
        ensures { result.now ≡ self.now.holds }
    {
        &self.bytes
    }

    // Counts a fault.
    fn fail(&mut self) -> Failed
        ensures faults { self.new ≡ record self.old { faults = one_more self.old.faults } }
        ensures later { self.old.faults ≤ self.new.faults }
        ensures few { self.new.faults < 2 ^ 64 }
    {
        self.faults = self.faults.saturating_add(1);
        Failed
    }
}

impl Sink for MemSink {
    ghost holds = { λ s. Some s.holds };

    ghost faults = { λ s. s.faults };

    fn write(&mut self, piece: &[u8]) -> Result<usize, Failed>
        ensures takes { Takes result piece.now }
        ensures bytes { WriteAppends (Some self.old.holds) (Some self.new.holds) result piece.now }
        ensures cause { HasCause self.old.faults self.new.faults result }
        ensures few { self.new.faults < 2 ^ 64 }

        // It fails exactly at the calls that are numbered and where the piece is longer than the room that is left, and
        // takes the whole piece otherwise.
        ensures calls { self.new.calls ≡ one_more self.old.calls }
        ensures exact { IsErr result ↔ (Contains self.old.failing self.new.calls ⊎ (self.old.room < length piece.now)) }
        ensures faultless { OnOk result (self.new.faults ≡ self.old.faults) }
        ensures whole { IfOk result (λ n. n ≡ length piece.now) }
        ensures room { OnOk result (self.new.room ≡ self.old.room - length piece.now) }
        ensures kept_room { OnErr result (self.new.room ≡ self.old.room) }
        ensures failing { self.new.failing ≡ self.old.failing }
    {
        let _faults = self.faults;
        self.calls = self.calls.saturating_add(1);
        if self.failing.contains(&self.calls) || piece.len() > self.room {
            return Err(self.fail());
        }
        self.room -= piece.len();
        match self.bytes.extend_from_slice(piece) {
            Ok(()) => Ok(piece.len()),
            Err(_) => unreachable!(),
        }
    }

    fn flush(&mut self) -> Result<(), Failed>
        ensures bytes { Keeps (Some self.old.holds) (Some self.new.holds) }
        ensures cause { HasCause self.old.faults self.new.faults result }
        ensures few { self.new.faults < 2 ^ 64 }

        ensures calls { self.new.calls ≡ one_more self.old.calls }
        ensures exact { IsErr result ↔ Contains self.old.failing self.new.calls }
        ensures faultless { OnOk result (self.new.faults ≡ self.old.faults) }
        ensures room { self.new.room ≡ self.old.room }
        ensures failing { self.new.failing ≡ self.old.failing }
    {
        let _faults = self.faults;
        self.calls = self.calls.saturating_add(1);
        if self.failing.contains(&self.calls) {
            return Err(self.fail());
        }
        Ok(())
    }
}
