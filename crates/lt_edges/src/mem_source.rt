//! A source in memory that comes in steps and fails as it is told.
ghost use Rattle.std.specs.Prelude.{◌≡◌, ◌<◌, ◌^◌, ◌↔◌, length, min, Some, IfOk, OnOk, IsErr, Contains};
ghost use Rattle.std.specs.Io.{ReadsAtMost};
ghost use Rattle.std.specs.Io.KnownBytes.{ReadConsumes};
ghost use Rattle.lt_edges.specs.Causes.{HasCause, one_more};
ghost use Rattle.lt_edges.specs.Memory.{fresh_input};

use crate::source::{Failed, Source};
use lt_face::memory::NoMemory;
use std::alloc::Global;
use std::marker::Model;

/// Bytes in memory, which come in steps, with faults at the calls that are numbered.
#[derive(Drop)]
pub struct MemSource {
    bytes: Vec<u8>,
    at: usize,
    step: usize,
    failing: Vec<u64>,
    calls: u64,
    faults: u64,
}

impl Model for MemSource {
    ghost use Rattle.std.specs.Prelude.{◌≤◌, ◌<◌, length, drop};
    ghost use Rattle.lt_edges.specs.Memory.{Input};

    ghost Value = { Input };

    ghost view = { λ s. record { left = drop s.at s.bytes.items; step = s.step; failing = s.failing.items; calls = s.calls; faults = s.faults } };

    ghost invariant = { λ s. (s.at ≤ length s.bytes.items) × (0 < s.step) };
}

impl MemSource {
    /// These bytes. Each read gives at most `step` of them. The calls numbered in `failing`, from 1 on, fail.
    pub fn new(
        alloc: Global,
        bytes: &[u8],
        step: usize,
        failing: &[u64],
    ) -> Result<MemSource, NoMemory>
        requires { 0 < step }
        ensures { IfOk result (λ source. source ≡ fresh_input bytes.now step failing.now) }
    {
        Ok(MemSource {
            bytes: bytes.to_vec(alloc)?,
            at: 0,
            step,
            failing: failing.to_vec(alloc)?,
            calls: 0,
            faults: 0,
        })
    }
}

impl Source for MemSource {
    ghost left = { λ s. Some s.left };

    ghost faults = { λ s. s.faults };

    fn read(&mut self, buf: &mut [u8]) -> Result<usize, Failed>
        ensures bound { ReadsAtMost result buf.new }
        ensures bytes { ReadConsumes (Some self.old.left) (Some self.new.left) result buf.new }
        ensures cause { HasCause self.old.faults self.new.faults result }
        ensures few { self.new.faults < 2 ^ 64 }

        // It fails exactly at the calls that are numbered, and gives all that step, buffer and input have.
        ensures calls { self.new.calls ≡ one_more self.old.calls }
        ensures exact { IsErr result ↔ Contains self.old.failing self.new.calls }
        ensures faultless { OnOk result (self.new.faults ≡ self.old.faults) }
        ensures count { IfOk result (λ n. n ≡ min (min self.old.step (length buf.new)) (length self.old.left)) }
        ensures step { self.new.step ≡ self.old.step }
        ensures failing { self.new.failing ≡ self.old.failing }
    {
        let faults = self.faults;
        self.calls = self.calls.saturating_add(1);
        if self.failing.contains(&self.calls) {
            self.faults = faults.saturating_add(1);
            return Err(Failed);
        }
        let (_, rest) = self.bytes.split_at(self.at);
        let count = self.step.min(buf.len()).min(rest.len());
        let (front, _) = rest.split_at(count);
        buf[..count].copy_from_slice(front);
        self.at += count;
        Ok(count)
    }
}
