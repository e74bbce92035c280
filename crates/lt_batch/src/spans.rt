//! The programs of several batches in one list, and where those of each batch stand in it.
ghost use Rattle.std.specs.Prelude.{◌≡◌, ◌<◌, ◌≤◌, ◌+◌, ◌/◌, ◌%◌, ◌++◌, List, [], ◌∷◌, map, length, slice_index_or, IfOk, IsTrue, OnOk};
ghost use Rattle.std.specs.Arc.{arc_value};
ghost use Rattle.std.specs.List.{AllByRecursion, flat_map};
ghost use Rattle.lt_face.specs.Limits.{most_programs};
ghost use Rattle.lt_model.specs.declared.normal.Stmt.{Stmt};
ghost use Rattle.lt_circuit.specs.Row.{most_segments};
ghost use Rattle.lt_batch.specs.Line.{programs_of};
ghost use Rattle.lt_batch.specs.Spans.{no_span, parted, AreWithin};

use lt_face::memory::NoMemory;
use lt_query::Planned;
use std::alloc::Global;
use std::sync::Arc;

/// How many leaves a line counts for a segment.
const LEAVES: u32 = 256;

/// The programs of a batch.
pub type ProgList = Vec<Arc<Planned>>;

/// Where the programs of a batch stand among those of all batches.
#[derive(Clone, Copy)]
pub struct Span {
    pub start: u32,
    pub count: u32,
}

/// Whether there is such a segment.
pub(crate) fn has_segment(spans: &[Span], leaf: u32) -> bool
    ensures { IsTrue result → leaf / 256 < length spans.now }
{
    ((leaf / LEAVES) as usize) < spans.len()
}

/// The number that a leaf's program has among those of all batches.
pub(crate) fn place_of(spans: &[Span], leaf: u32) -> u32
    requires segment { leaf / 256 < length spans.now }
    requires within { AreWithin spans.now 2048 }
    ensures { result ≡ (slice_index_or spans.now (leaf / 256) no_span).start + leaf % 256 }
{
    let span = spans[(leaf / LEAVES) as usize];
    span.start + leaf % LEAVES
}

/// Puts further owners of a batch's programs behind the others.
fn push_all(all: &mut ProgList, batch: &[Arc<Planned>]) -> Result<(), NoMemory>
    ensures { OnOk result (map arc_value all.new.items ≡ map arc_value all.old.items ++ map arc_value batch.now) }
{
    for prog in batch {
        let prog = prog.clone()?;
        all.push(prog)?;
    }
    Ok(())
}

/// The programs of a batch that runs alone, and where they stand.
pub(crate) fn laid_alone(
    alloc: Global,
    batch: &[Arc<Planned>],
) -> Result<(ProgList, Vec<Span>), NoMemory>
    requires few { length batch.now ≤ most_programs }
    ensures all { IfOk result (λ out. map arc_value out.0.items ≡ map arc_value batch.now) }
    ensures parted { IfOk result (λ out. parted out.1.items (map arc_value out.0.items) ≡ map arc_value batch.now ∷ []) }
    ensures within { IfOk result (λ out. AreWithin out.1.items 2048) }
{
    let mut all = Vec::with_capacity(alloc, batch.len())?;
    push_all(&mut all, batch)?;
    let mut spans = Vec::with_capacity(alloc, 1)?;
    let count = batch.len() as u32;
    spans.push(Span { start: 0, count })?;
    Ok((all, spans))
}

/// All programs, batch after batch, and where those of each batch stand.
pub(crate) fn laid_out(
    alloc: Global,
    batches: &[ProgList],
) -> Result<(ProgList, Vec<Span>), NoMemory>
    requires short { length batches.now ≤ most_segments }
    requires few { AllByRecursion (λ (programs : List (List Stmt)). length programs ≤ most_programs) (programs_of batches.now) }
    ensures all { IfOk result (λ out. map arc_value out.0.items ≡ flat_map (λ (programs : List (List Stmt)). programs) (programs_of batches.now)) }
    ensures parted { IfOk result (λ out. parted out.1.items (map arc_value out.0.items) ≡ programs_of batches.now) }
    ensures within { IfOk result (λ out. AreWithin out.1.items 2048) }
{
    let mut all = Vec::new(alloc);
    let mut spans = Vec::new(alloc);
    for batch in batches {
        spans.push(Span {
            start: all.len() as u32,
            count: batch.len() as u32,
        })?;
        push_all(&mut all, batch)?;
    }
    Ok((all, spans))
}
