//! What the leaves of a settled line answered and wrote.
ghost use Rattle.std.specs.Prelude.{◌≡◌, ◌+◌, map, length, IfOk};
ghost use Rattle.std.specs.List.{AllByRecursion};
ghost use Rattle.lt_model.specs.Fits.{FitMarks};
ghost use Rattle.lt_base.specs.Tables.{state_of};
ghost use Rattle.lt_program.specs.Run.{AreReplied};
ghost use Rattle.lt_batch.specs.Batch.{serial_replies, serial_effects};
ghost use Rattle.lt_batch.specs.Line.{batch_at, line_effects, line_replies, state_before};
ghost use Rattle.lt_batch.specs.LineRun.{IsRunBelow};

use crate::outcome::{Effects, LineEffects, LineReplies, Replies};
use crate::work::BatchWork;
use lt_base::Database;
use lt_circuit::Line;
use lt_face::items::Items;
use lt_face::memory::NoMemory;
use lt_program::copied_reply;
use std::alloc::Global;

/// The replies and the effects of the leaves of segment s.
fn gathered_in(
    alloc: Global,
    line: &Line<BatchWork>,
    s: u32,
    leaves: u32,
) -> Result<(Replies, Effects), NoMemory>
    requires line { IsRunBelow (s + 1) line.now }
    requires leaves { leaves ≡ length (batch_at line.now.work.batches s) }
    ensures replies { IfOk result (λ out. out.0 ≡ serial_replies (batch_at line.now.work.batches s) (state_before line.now.work.batches (state_of line.now.work.snapshot) s)) }
    ensures effects { IfOk result (λ out. out.1 ≡ serial_effects (batch_at line.now.work.batches s) (state_before line.now.work.batches (state_of line.now.work.snapshot) s)) }
    ensures fit { IfOk result (λ out. AllByRecursion (FitMarks (state_of line.now.work.snapshot)) out.1) }
    ensures printed { IfOk result (λ out. AllByRecursion AreReplied out.0) }
{
    let mut replies = Items::new(alloc);
    let mut effects = Items::new(alloc);
    for leaf in 0..leaves {
        let reply = copied_reply(alloc, line.tally(s, leaf).reply())?;
        let effect = line.effect(s, leaf).share()?;
        replies.push(reply)?;
        effects.push(effect)?;
    }
    Ok((replies, effects))
}

/// The replies and the effects of all leaves, segment by segment.
pub(crate) fn gathered_line(
    alloc: Global,
    line: &Line<BatchWork>,
    leaves: &[u32],
) -> Result<(LineReplies, LineEffects), NoMemory>
    requires line { IsRunBelow (length line.now.work.batches) line.now }
    requires leaves { leaves.now ≡ map length line.now.work.batches }
    ensures replies { IfOk result (λ out. out.0 ≡ line_replies line.now.work.batches (state_of line.now.work.snapshot)) }
    ensures effects { IfOk result (λ out. out.1 ≡ line_effects line.now.work.batches (state_of line.now.work.snapshot)) }
    ensures fit { IfOk result (λ out. AllByRecursion (AllByRecursion (FitMarks (state_of line.now.work.snapshot))) out.1) }
    ensures printed { IfOk result (λ out. AllByRecursion (AllByRecursion AreReplied) out.0) }
{
    let mut replies = Items::new(alloc);
    let mut effects = Items::new(alloc);
    for s in 0..leaves.len() {
        let (answered, wrote) = gathered_in(alloc, line, s as u32, leaves[s])?;
        replies.push(answered)?;
        effects.push(wrote)?;
    }
    Ok((replies, effects))
}

/// The snapshot with all that the leaves of a settled line wrote laid on it, which is the state that the batches leave.
pub(crate) fn left_by_line(
    snapshot: &Database,
    line: &Line<BatchWork>,
    segments: u32,
) -> Result<Database, NoMemory>
    requires line { IsRunBelow (length line.now.work.batches) line.now }
    requires segments { segments ≡ length line.now.work.batches }
    requires snapshot { snapshot.now ≡ line.now.work.snapshot }
    ensures { IfOk result (λ db. state_of db ≡ state_before line.now.work.batches (state_of line.now.work.snapshot) (length line.now.work.batches)) }
{
    let mut db = snapshot.share()?;
    for s in 0..segments {
        db.lay(line.root_effect(s))?;
    }
    Ok(db)
}
