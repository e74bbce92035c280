//! The top call on a script in memory.
use lt_edges::{Gate, MemSink, MemSource};
use lt_session::repair_main;
use std::alloc::{AllocError, Global};
use std::sync::Wait;
use std::test::Fail;
use std::thread::Threads;

/// The words of a line, after the program's name.
pub(crate) fn words_of(alloc: Global, line: &str) -> Result<Vec<String>, AllocError> {
    let mut words = Vec::new(alloc);
    words.push(String::from_str(alloc, "lt_shell")?)?;
    for word in line.split_whitespace() {
        words.push(String::from_str(alloc, word)?)?;
    }
    Ok(words)
}

/// The status of the words of a line on this input. Workers and readers pass the gate.
pub(crate) fn status_of<R: Threads + Wait + Sync, G: Gate>(
    rt: &R,
    alloc: Global,
    line: &str,
    source: &mut MemSource,
    sink: &mut MemSink,
    gate: &G,
) -> Result<u8, Fail> {
    let words = words_of(alloc, line)?;
    Ok(repair_main(rt, alloc, &words, source, sink, gate))
}

/// The status of the words of a line on a script, and what was written to a sink with so much room.
pub(crate) fn outcome<R: Threads + Wait + Sync, G: Gate>(
    rt: &R,
    alloc: Global,
    line: &str,
    script: &str,
    room: usize,
    gate: &G,
) -> Result<(u8, MemSink), Fail> {
    let mut source = MemSource::new(alloc, script.as_bytes(), 7, &[])?;
    let mut sink = MemSink::new(alloc, room, &[])?;
    let status = status_of(rt, alloc, line, &mut source, &mut sink, gate)?;
    Ok((status, sink))
}
