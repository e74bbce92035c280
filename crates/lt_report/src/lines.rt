//! Lines that stand alone.
ghost use Rattle.lt_model.specs.Report.{bad_program_text, bad_text, batch_text, close_text, usage_text, version_text};
ghost use Rattle.lt_model.specs.Script.{Fault};
ghost use Rattle.lt_report.specs.Puts.{Puts};

use crate::line::{put_line, write_all};
use itoa::Buffer;
use lt_edges::{Failed, Sink};
use lt_model::name::Name;

/// The line with which a batch begins.
pub fn put_batch<K: Sink>(sink: &mut K, number: u64) -> Result<(), Failed>
    ensures { Puts result (K.holds sink.old) (K.holds sink.new) (K.faults sink.old) (K.faults sink.new) (batch_text number) }
{
    let mut buffer = Buffer::new();
    put_line(sink, &[b"batch", buffer.format(number).as_bytes()])
}

/// The line with which a batch ends.
pub fn put_version<K: Sink>(sink: &mut K, number: u64) -> Result<(), Failed>
    ensures { Puts result (K.holds sink.old) (K.holds sink.new) (K.faults sink.old) (K.faults sink.new) (version_text number) }
{
    let mut buffer = Buffer::new();
    put_line(sink, &[b"version", buffer.format(number).as_bytes()])
}

/// The line of a program with a code, and the number of the statement that has it.
pub fn put_bad_program<K: Sink>(
    sink: &mut K,
    name: &Name,
    code: u32,
    statement: u32,
) -> Result<(), Failed>
    ensures { Puts result (K.holds sink.old) (K.holds sink.new) (K.faults sink.old) (K.faults sink.new) (bad_program_text name.now code statement) }
{
    let mut first = Buffer::new();
    let mut second = Buffer::new();
    let code = first.format(code).as_bytes();
    let statement = second.format(statement).as_bytes();
    put_line(sink, &[name.as_bytes(), b"bad", code, statement])
}

/// The line of an item with a code.
pub fn put_bad_item<K: Sink>(sink: &mut K, code: u32) -> Result<(), Failed>
    ensures { Puts result (K.holds sink.old) (K.holds sink.new) (K.faults sink.old) (K.faults sink.new) (bad_text code) }
{
    let mut buffer = Buffer::new();
    put_line(sink, &[b"bad", buffer.format(code).as_bytes()])
}

/// The line of a fault: the line on which it stands, and its code.
pub fn put_fault<K: Sink>(sink: &mut K, at: u64, code: u32) -> Result<(), Failed>
    ensures { Puts result (K.holds sink.old) (K.holds sink.new) (K.faults sink.old) (K.faults sink.new) (close_text (Fault at code)) }
{
    let mut first = Buffer::new();
    let mut second = Buffer::new();
    let at = first.format(at).as_bytes();
    put_line(sink, &[b"fault", at, second.format(code).as_bytes()])
}

/// How the program is called.
pub fn put_usage<K: Sink>(sink: &mut K) -> Result<(), Failed>
    ensures { Puts result (K.holds sink.old) (K.holds sink.new) (K.faults sink.old) (K.faults sink.new) usage_text }
{
    let usage =
        "usage: lt_shell run [--workers N] [--marks] | lt_shell bench --seed S --items I --programs P [--workers N]\n";
    write_all(sink, usage.as_bytes())
}
