//! The lines of a summary.
ghost use Rattle.std.specs.Prelude.{◌∷◌, []};
ghost use Rattle.lt_model.specs.Report.{line as line_of};
ghost use Rattle.lt_report.specs.Puts.{Puts};
ghost use Rattle.lt_gen.specs.Summaries.{count_text, counts_text, reads_text, sums_text, summary_text};

use crate::summary::Summary;
use itoa::{Buffer, Integer};
use lt_edges::{Failed, Sink};
use lt_report::put_line;

// A word and a number on their line.
fn put_number<K: Sink, N: Integer>(sink: &mut K, word: &[u8], number: N) -> Result<(), Failed>
    ensures { Puts result (K.holds sink.old) (K.holds sink.new) (K.faults sink.old) (K.faults sink.new) (line_of (word.now ∷ N.text number ∷ [])) }
{
    let mut buffer = Buffer::new();
    put_line(sink, &[word, buffer.format(number).as_bytes()])
}

// How many programs there are, and how they ended.
fn put_programs<K: Sink>(sink: &mut K, summary: &Summary) -> Result<(), Failed>
    ensures { Puts result (K.holds sink.old) (K.holds sink.new) (K.faults sink.old) (K.faults sink.new) (counts_text summary.now) }
{
    put_number(sink, b"programs", summary.programs)?;
    put_number(sink, b"done", summary.done)?;
    put_number(sink, b"refused", summary.refused)
}

// What was printed, and what the relations have at the end.
fn put_sums<K: Sink>(sink: &mut K, summary: &Summary) -> Result<(), Failed>
    ensures { Puts result (K.holds sink.old) (K.holds sink.new) (K.faults sink.old) (K.faults sink.new) (sums_text summary.now) }
{
    put_number(sink, b"printed", summary.printed)?;
    put_number(sink, b"left", summary.left)?;
    put_number(sink, b"sold", summary.sold)
}

// A number that may not be there.
fn put_if_there<K: Sink>(sink: &mut K, word: &[u8], number: Option<u64>) -> Result<(), Failed>
    ensures { Puts result (K.holds sink.old) (K.holds sink.new) (K.faults sink.old) (K.faults sink.new) (count_text word.now number) }
{
    match number {
        Some(number) => put_number(sink, word, number),
        None => Ok(()),
    }
}

// What was read beside the batches.
fn put_reads<K: Sink>(sink: &mut K, summary: &Summary) -> Result<(), Failed>
    ensures { Puts result (K.holds sink.old) (K.holds sink.new) (K.faults sink.old) (K.faults sink.new) (reads_text summary.now) }
{
    put_if_there(sink, b"reads", summary.reads)?;
    put_if_there(sink, b"equal", summary.equal)
}

/// The lines of a summary. It takes no memory.
pub fn bench_summary<K: Sink>(sink: &mut K, summary: &Summary) -> Result<(), Failed>
    ensures { Puts result (K.holds sink.old) (K.holds sink.new) (K.faults sink.old) (K.faults sink.new) (summary_text summary.now) }
{
    put_programs(sink, summary)?;
    put_sums(sink, summary)?;
    put_reads(sink, summary)
}
