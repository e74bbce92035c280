//! The picture as a whole.
ghost use Rattle.std.specs.Prelude.{◌≤◌, All, OnOk, IfErr};
ghost use Rattle.std.specs.Io.KnownBytes.{Appends};
ghost use Rattle.lt_picture.specs.Stops.{IsRefusal};

use crate::batch::Batch;
use crate::chart::put_chart;
use crate::layout::{LEGEND, height_over, width_over};
use crate::legend::{LEGEND_TEXT, STYLE};
use crate::stop::Stop;
use lt_edges::Sink;
use std::alloc::{AllocError, Global};

/// Writes all of a piece.
fn write_all<K: Sink>(sink: &mut K, piece: &[u8]) -> Result<(), Stop>
    ensures ok { OnOk result (Appends (K.holds sink.old) (K.holds sink.new) piece.now) }
    ensures err { IfErr result (λ stop. IsRefusal stop → ⊥) }
{
    let mut rest = piece;
    'rest: while !rest.is_empty() {
        let Ok(count) = sink.write(rest) else {
            return Err(Stop::WriteFailed);
        };
        let (_, others) = rest.split_at(count);
        rest = others;
    }
    Ok(())
}

/// The most entries that a batch has.
fn most_entries(batches: &[Batch<'_>]) -> u32
    ensures { All (λ batch. batch.events ≤ result) batches.now }
{
    let mut entries = 0;
    for batch in batches {
        entries = batch.events.max(entries);
    }
    entries
}

/// How high the picture of these batches is.
fn height_of(batches: &[Batch<'_>]) -> u64 {
    let mut height = LEGEND;
    for batch in batches {
        height = height.saturating_add(height_over(batch.lanes()));
    }
    height
}

/// Writes what stands before the batches.
fn put_head(text: &mut String, width: u64, height: u64) -> Result<(), AllocError> {
    write!(text, "<svg xmlns='http://www.w3.org/2000/svg' ")?;
    write!(text, "width='{width}' height='{height}' ")?;
    writeln!(text, "viewBox='0 0 {width} {height}'>")?;
    text.push_str(STYLE)?;
    text.push_str(LEGEND_TEXT)
}

/// Writes the picture of these batches, one below the other.
pub fn write_picture<K: Sink>(
    alloc: Global,
    batches: &[Batch<'_>],
    sink: &mut K,
) -> Result<(), Stop>
    ensures { IfErr result (λ stop. IsRefusal stop → ⊥) }
{
    let mut text = String::new(alloc);
    let width = width_over(most_entries(batches));
    put_head(&mut text, width, height_of(batches))?;
    write_all(sink, text.as_bytes())?;
    let mut top = LEGEND;
    for batch in batches {
        text.clear();
        put_chart(&mut text, batch, top)?;
        write_all(sink, text.as_bytes())?;
        top = top.saturating_add(height_over(batch.lanes()));
    }
    write_all(sink, b"</svg>\n")?;
    match sink.flush() {
        Ok(()) => Ok(()),
        Err(_) => Err(Stop::WriteFailed),
    }
}
