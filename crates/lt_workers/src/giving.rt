//! What is final of a line is handed on.
ghost use Rattle.std.specs.Prelude.{◌≡◌, ◌≤◌, List, OnOk, length};
ghost use Rattle.lt_model.specs.declared.mark.Mark.{Mark};
ghost use Rattle.lt_net.specs.Line.{IsPast};
ghost use Rattle.lt_circuit.specs.Line.{line_state};
ghost use Rattle.lt_circuit.specs.Row.{sizes};
ghost use Rattle.lt_workers.specs.Given.{Gives};

use crate::on_final::OnFinal;
use lt_circuit::{LeafWork, Line};
use lt_face::NoMemory;
use std::sync::Wait;
use std::thread::Threads;

/// Hands on what the segments from `count` to below `end` do, and counts them.
pub(crate) fn give_up_to<R: Threads + Wait + Sync, W: LeafWork, O: OnFinal>(
    rt: &R,
    line: &Line<W>,
    on: &mut O,
    count: &mut u32,
    end: u32,
) -> Result<(), NoMemory>
    requires end { end ≤ length (sizes line.now.row) }
    requires past { IsPast end (line_state line.now) }
    requires base { (m : List Mark) → W.fits line.now.work m → O.fits on.old m }
    ensures given { Gives (sizes line.now.row) (line_state line.now) (line_state line.now) (O.given on.old) (O.given on.new) count.old count.new }
    ensures all { OnOk result (count.old ≤ end → count.new ≡ end) }
    ensures base { (m : List Mark) → O.fits on.old m → O.fits on.new m }
{
    for segment in *count..end {
        on.on_final(rt, segment, line.root_effect(segment))?;
        *count = segment + 1;
    }
    Ok(())
}
