//! The lines of traces.
ghost use Rattle.lt_report.specs.Puts.{Puts};
ghost use Rattle.lt_report.specs.Traces.{bad_trace_text, entry_text, trace_text};

use crate::line::put_line;
use itoa::Buffer;
use lt_edges::{Failed, Sink};

/// The line with which the trace of a batch begins: how many of its programs have no code, and how many entries follow.
pub fn put_trace<K: Sink>(
    sink: &mut K,
    batch: u64,
    programs: u32,
    entries: u64,
) -> Result<(), Failed>
    ensures { Puts result (K.holds sink.old) (K.holds sink.new) (K.faults sink.old) (K.faults sink.new) (trace_text batch programs entries) }
{
    let mut first = Buffer::new();
    let mut second = Buffer::new();
    let mut third = Buffer::new();
    let batch = first.format(batch).as_bytes();
    let programs = second.format(programs).as_bytes();
    let entries = third.format(entries).as_bytes();
    put_line(sink, &[b"trace", batch, programs, entries])
}

/// The line of an entry: its worker and its code.
pub fn put_entry<K: Sink>(sink: &mut K, worker: u32, code: u32) -> Result<(), Failed>
    ensures { Puts result (K.holds sink.old) (K.holds sink.new) (K.faults sink.old) (K.faults sink.new) (entry_text worker code) }
{
    let mut first = Buffer::new();
    let mut second = Buffer::new();
    let worker = first.format(worker).as_bytes();
    let code = second.format(code).as_bytes();
    put_line(sink, &[worker, code])
}

/// The line that says where a trace isn't right: its batch, and the entry or the line.
pub fn put_bad_trace<K: Sink>(sink: &mut K, batch: u64, place: u64) -> Result<(), Failed>
    ensures { Puts result (K.holds sink.old) (K.holds sink.new) (K.faults sink.old) (K.faults sink.new) (bad_trace_text batch place) }
{
    let mut first = Buffer::new();
    let mut second = Buffer::new();
    let batch = first.format(batch).as_bytes();
    let place = second.format(place).as_bytes();
    put_line(sink, &[b"bad", b"trace", batch, place])
}
