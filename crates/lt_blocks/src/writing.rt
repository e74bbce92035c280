//! Blocks, written to a sink. No call takes memory.
ghost use Rattle.lt_blocks.specs.Blocks.{block_text, blocks_text, entries_text};
ghost use Rattle.lt_report.specs.Puts.{Puts};

use crate::block::Block;
use lt_batch::Written;
use lt_edges::{Failed, Sink};
use lt_report::{put_entry, put_trace};

// A line for each entry.
fn put_entries<K: Sink>(sink: &mut K, entries: &[Written]) -> Result<(), Failed>
    ensures { Puts result (K.holds sink.old) (K.holds sink.new) (K.faults sink.old) (K.faults sink.new) (entries_text entries.now) }
{
    'each: for entry in entries {
        put_entry(sink, entry.worker, entry.code)?;
    }
    Ok(())
}

// The lines of a block.
fn put_block<K: Sink>(sink: &mut K, block: &Block) -> Result<(), Failed>
    ensures { Puts result (K.holds sink.old) (K.holds sink.new) (K.faults sink.old) (K.faults sink.new) (block_text block.now) }
{
    let entries = block.entries.as_slice();
    put_trace(sink, block.number, block.programs, entries.len() as u64)?;
    put_entries(sink, entries)
}

/// The lines of blocks, one after another.
pub fn put_blocks<K: Sink>(sink: &mut K, blocks: &[Block]) -> Result<(), Failed>
    ensures { Puts result (K.holds sink.old) (K.holds sink.new) (K.faults sink.old) (K.faults sink.new) (blocks_text blocks.now) }
{
    'each: for block in blocks {
        put_block(sink, block)?;
    }
    Ok(())
}
