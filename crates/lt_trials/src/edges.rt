//! Sources and sinks in memory, those that never fail, and those over the library's readers and writers.
use crate::agree::{holds, same};
use lt_edges::{
    Failed, Gate, MeetGate, MemSink, MemSource, OpenGate, OrderGate, Sink, Source, StdSink,
    StdSource, SureSink, SureSource,
};
use lt_face::NoMemory;
use std::alloc::Global;
use std::io::{self, ErrorKind, Read, Write};
use std::process::Abort;
use std::sync::Wait;

#[test]
fn reads_in_steps_up_to_the_end(rt: HostRuntime) -> Result<(), NoMemory> {
    let mut source = MemSource::new(rt.alloc(), b"abcdef", 3, &[2])?;
    let reads: [(usize, Result<&[u8], Failed>); 7] = [
        (8, Ok(b"abc")),
        (8, Err(Failed)),
        (2, Ok(b"de")),
        (0, Ok(b"")),
        (2, Ok(b"f")),
        (2, Ok(b"")),
        (2, Ok(b"")),
    ];
    for (room, gives) in reads {
        check_read(&rt, &mut source, room, gives);
    }
    Ok(())
}

#[test]
fn keeps_what_it_has_room_for(rt: HostRuntime) -> Result<(), NoMemory> {
    let mut sink = MemSink::new(rt.alloc(), 4, &[2, 6])?;
    let writes: [(&[u8], Result<usize, Failed>); 5] = [
        (b"abc", Ok(3)),
        (b"d", Err(Failed)),
        (b"de", Err(Failed)),
        (b"d", Ok(1)),
        (b"", Ok(0)),
    ];
    for (piece, takes) in writes {
        check_write(&rt, &mut sink, piece, takes);
    }
    check_flush(&rt, &mut sink, Err(Failed));
    check_flush(&rt, &mut sink, Ok(()));
    same(&rt, sink.bytes(), b"abcd".as_slice());
    Ok(())
}

#[test]
fn never_fails(rt: HostRuntime) {
    let mut source = SureSource::new(b"abc");
    for gives in [b"ab".as_slice(), b"c", b""] {
        check_read(&rt, &mut source, 2, Ok(gives));
    }
    let mut sink = SureSink;
    same(&rt, sink.write(b"abc"), Ok(3));
    same(&rt, sink.flush(), Ok(()));
    OpenGate.pass(&rt, 0, 0);
}

/// Whether a gate that holds job 0 until job 3 has come was met by these two calls of one thread.
fn meets<R: Wait>(rt: &R, first: u32, second: u32) -> bool {
    let gate = MeetGate::new(0, 3, 10);
    gate.pass(rt, 0, first);
    gate.pass(rt, 0, second);
    gate.met()
}

#[test]
fn one_thread_meets_only_what_came_before(rt: HostRuntime) {
    same(&rt, meets(&rt, 0, 3), false);
    same(&rt, meets(&rt, 3, 0), true);
}

/// Whether a gate for these jobs was passed in order by these calls of one thread.
fn passes<R: Wait>(rt: &R, alloc: Global, order: &[u32], calls: &[u32]) -> Result<bool, NoMemory> {
    let gate = OrderGate::new(alloc, order, 10)?;
    for call in calls {
        gate.pass(rt, 0, *call);
    }
    Ok(gate.passed())
}

#[test]
fn one_thread_passes_in_order_alone(rt: HostRuntime) -> Result<(), NoMemory> {
    let rows: [(&[u32], &[u32], bool); 10] = [
        (&[1, 0], &[1, 0], true),
        (&[1, 0], &[0, 1], false),
        (&[1, 0], &[1], false),
        (&[1, 0], &[], false),
        (&[], &[], true),
        (&[], &[7], true),
        // later calls and other jobs pass
        (&[6, 3, 0], &[9, 6, 6, 3, 6, 0, 3], true),
        (&[6, 3, 0], &[6, 0, 3], false),
        (&[6, 3, 0], &[3, 6, 3, 0], false),
        // a job that stands in the list again has its first place
        (&[6, 3, 6], &[6, 3], true),
    ];
    for (order, calls, passed) in rows {
        let found = passes(&rt, rt.alloc(), order, calls)?;
        same(&rt, (order, calls, found), (order, calls, passed));
    }
    Ok(())
}

#[test]
fn passes_on_a_reader(rt: HostRuntime) {
    let mut source = StdSource::new(b"abc".as_slice());
    for gives in [b"ab".as_slice(), b"c", b""] {
        check_read(&rt, &mut source, 2, Ok(gives));
    }
    let mut halting = StdSource::new(Halting { fails: false });
    for gives in [Err(Failed), Ok(b"x".as_slice()), Err(Failed)] {
        check_read(&rt, &mut halting, 2, gives);
    }
}

#[test]
fn passes_on_a_writer(rt: HostRuntime) {
    // A slice takes what it has room for, and then nothing without an error.
    let mut room = [0; 4];
    let mut sink = StdSink::new(room.as_mut_slice());
    let writes: [(&[u8], Result<usize, Failed>); 4] = [
        (b"abc", Ok(3)),
        (b"de", Ok(1)),
        (b"", Ok(0)),
        (b"e", Err(Failed)),
    ];
    for (piece, takes) in writes {
        check_write(&rt, &mut sink, piece, takes);
    }
    check_flush(&rt, &mut sink, Ok(()));
    drop(sink);
    same(&rt, room.as_slice(), b"abcd".as_slice());
}

#[test]
fn passes_on_the_faults_of_a_writer(rt: HostRuntime) {
    let mut halting = StdSink::new(Halting { fails: false });
    same(&rt, halting.write(b"abc"), Err(Failed));
    same(&rt, halting.write(b"abc"), Ok(1));
    same(&rt, halting.flush(), Err(Failed));
    same(&rt, halting.flush(), Ok(()));
}

/// Its calls fail and succeed in turn. It gives `x`s, and takes a byte of a piece.
#[derive(Drop)]
struct Halting {
    fails: bool,
}

impl Halting {
    fn turn(&mut self) -> io::Result<()> {
        self.fails = !self.fails;
        if self.fails {
            return Err(io::Error::from(ErrorKind::Other));
        }
        Ok(())
    }
}

impl Read for Halting {
    fn read(&mut self, buf: &mut [u8]) -> io::Result<usize> {
        self.turn()?;
        match buf.first_mut() {
            Some(place) => {
                *place = b'x';
                Ok(1)
            }
            None => Ok(0),
        }
    }
}

impl Write for Halting {
    fn write(&mut self, buf: &[u8]) -> io::Result<usize> {
        self.turn()?;
        Ok(buf.len().min(1))
    }

    fn flush(&mut self) -> io::Result<()> {
        self.turn()
    }
}

/// Reads into a buffer of so many bytes.
fn check_read<S: Source>(
    rt: &impl Abort,
    source: &mut S,
    room: usize,
    gives: Result<&[u8], Failed>,
) {
    let mut buf = [0; 8];
    holds(rt, room <= 8);
    let result = source.read(&mut buf[..room]);
    match result {
        Ok(count) => {
            holds(rt, count <= room);
            same(rt, Ok(&buf[..count]), gives);
        }
        Err(Failed) => same(rt, Err(Failed), gives),
    }
}

/// Writes a piece.
fn check_write<S: Sink>(rt: &impl Abort, sink: &mut S, piece: &[u8], takes: Result<usize, Failed>) {
    same(rt, (piece, sink.write(piece)), (piece, takes));
}

/// Passes on what was written.
fn check_flush<S: Sink>(rt: &impl Abort, sink: &mut S, answer: Result<(), Failed>) {
    same(rt, sink.flush(), answer);
}
