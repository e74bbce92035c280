//! The traces of a report.
//!
//! The lines of the report come first. One that begins with `print` or `show`, which are no names of programs, says how many
//! rows follow; these are passed over, since a row can look like any line. The first line `trace K n e` among the others
//! begins the traces, and nothing but traces follows. What the lines before say of programs tells their names.
ghost use Rattle.std.specs.Prelude.{◌<◌, ◌≤◌, length, IfOk};
ghost use Rattle.lt_face.specs.Limits.{most_programs, most_workers};

use crate::batch::{Bar, Batch};
use crate::claims::Claims;
use crate::entries::{entry_of, flaw_of};
use crate::lines::{Header, entry_words, header_of, rows_behind};
use crate::names::Names;
use crate::refusal::{Flaw, Refusal};
use crate::stop::Stop;
use lt_circuit::{Entry, Event};
use lt_face::limits::MOST_PROGRAMS;
use std::alloc::Global;
use std::mem;

/// What is known behind some lines of a report.
#[derive(Drop)]
struct Reader<'a> {
    /// The allocator.
    alloc: Global,
    /// The lines so far.
    line: u64,
    /// The rows of the report that follow.
    rows: u32,
    /// The names that the report told.
    names: Names<'a>,
    /// The batches whose traces are complete.
    batches: Vec<Batch<'a>>,
    /// The first line of the last trace.
    header: Header,
    /// How many entries of it were met.
    entries: u32,
    /// Its claims that stand.
    claims: Claims,
    /// Its claims that have ended.
    bars: Vec<Bar>,
    ghost few: { header.programs ≤ most_programs },
}

impl<'a> Reader<'a> {
    /// Before the first line.
    fn new(alloc: Global) -> Reader<'a> {
        Reader {
            alloc,
            line: 0,
            rows: 0,
            names: Names::new(alloc),
            batches: Vec::new(alloc),
            header: Header {
                batch: 0,
                programs: 0,
                entries: 0,
            },
            entries: 0,
            claims: Claims::new(alloc),
            bars: Vec::new(alloc),
        }
    }

    /// The flaw of the last line.
    fn stop(&self, flaw: Flaw) -> Stop {
        Stop::Refused(Refusal::Line(self.line, flaw))
    }

    /// Goes on by a line.
    fn take(&mut self, line: &'a str) -> Result<(), Stop> {
        self.line = self.line.saturating_add(1);
        if self.entries < self.header.entries {
            return self.take_entry(line);
        }
        if self.rows > 0 {
            self.rows -= 1;
            return Ok(());
        }
        match header_of(line) {
            Some(header) => self.open(header),
            None if self.batches.is_empty() => {
                self.rows = rows_behind(line);
                self.names.take(line)?;
                Ok(())
            }
            None => Err(self.stop(Flaw::NoHeader)),
        }
    }

    /// Begins a trace.
    fn open(&mut self, header: Header) -> Result<(), Stop> {
        if header.programs as usize > MOST_PROGRAMS {
            return Err(self.stop(Flaw::ManyPrograms));
        }
        if !self.batches.is_empty() && self.header.batch.checked_add(1) != Some(header.batch) {
            return Err(self.stop(Flaw::OtherBatch));
        }
        self.header = header;
        self.entries = 0;
        self.claims = Claims::new(self.alloc);
        if header.entries == 0 {
            return self.close();
        }
        Ok(())
    }

    /// Takes an entry of the trace.
    fn take_entry(&mut self, line: &str) -> Result<(), Stop> {
        let Some((worker, code)) = entry_words(line) else {
            return Err(self.stop(Flaw::NoEntry));
        };
        let entry = entry_of(worker, code);
        if let Some(flaw) = flaw_of(self.header.programs, &entry) {
            return Err(self.stop(flaw));
        }
        self.entries = self.entries.saturating_add(1);
        if entry.event == Event::Claim {
            self.begin(&entry)?;
        } else {
            self.end_claim(&entry)?;
        }
        if self.entries == self.header.entries {
            return self.close();
        }
        Ok(())
    }

    /// A claim begins.
    fn begin(&mut self, entry: &Entry) -> Result<(), Stop> {
        if let Some(flaw) = self.claims.flaw_of(entry) {
            return Err(self.stop(flaw));
        }
        self.claims.begin(entry, self.entries)?;
        Ok(())
    }

    /// A claim ends.
    fn end_claim(&mut self, entry: &Entry) -> Result<(), Stop>
        requires { entry.now.worker < most_workers }
    {
        let Some(claim) = self.claims.end(entry) else {
            return Err(self.stop(Flaw::NoClaim));
        };
        let look = self.claims.look_of(entry)?;
        self.bars.push(Bar {
            worker: entry.worker,
            job: entry.job,
            look,
            from: claim.at,
            to: self.entries,
        })?;
        Ok(())
    }

    /// Ends the trace, whose entries were all met.
    fn close(&mut self) -> Result<(), Stop> {
        if !self.claims.is_empty() {
            return Err(self.stop(Flaw::Unended));
        }
        let bars = mem::replace(&mut self.bars, Vec::new(self.alloc));
        let Header {
            batch,
            programs,
            ..
        } = self.header;
        let names = self.names.of_batch(batch, programs);
        self.batches.push(Batch {
            number: batch,
            programs,
            events: self.header.entries,
            bars,
            names,
        })?;
        Ok(())
    }

    /// The batches, behind the last line.
    fn end(self) -> Result<Vec<Batch<'a>>, Stop>
        ensures { IfOk result (λ batches. 0 < length batches.items) }
    {
        let Reader {
            batches,
            header,
            entries,
            ..
        } = self;
        if entries < header.entries {
            Err(Stop::Refused(Refusal::CutTrace))
        } else if batches.is_empty() {
            Err(Stop::Refused(Refusal::NoTrace))
        } else {
            Ok(batches)
        }
    }
}

/// The batches whose traces stand at the end of a report.
pub fn batches_of(alloc: Global, text: &str) -> Result<Vec<Batch<'_>>, Stop>
    ensures { IfOk result (λ batches. 0 < length batches.items) }
{
    if text.is_empty() {
        return Err(Stop::Refused(Refusal::NoTrace));
    }
    let Some(lines) = text.strip_suffix('\n') else {
        return Err(Stop::Refused(Refusal::CutLine));
    };
    let mut reader = Reader::new(alloc);
    for line in lines.split('\n') {
        reader.take(line)?;
    }
    reader.end()
}
