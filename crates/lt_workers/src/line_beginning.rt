//! What one worker does of a line before others are called, and what of it is handed on meanwhile.
ghost use Rattle.std.specs.Prelude.{List};
ghost use Rattle.lt_model.specs.declared.mark.Mark.{Mark};
ghost use Rattle.lt_net.specs.Alone.{IsUnclaimed};
ghost use Rattle.lt_circuit.specs.Line.{line_state};
ghost use Rattle.lt_circuit.specs.Row.{sizes};
ghost use Rattle.lt_workers.specs.Alone.{WentAlone};
ghost use Rattle.lt_workers.specs.Given.{Gives};
ghost use Rattle.lt_workers.specs.Machines.{line_net_of, line_stand};

use crate::beginning::{Begun, go_on_alone};
use crate::giving::give_up_to;
use crate::on_final::OnFinal;
use crate::pace::Pace;
use lt_circuit::{LeafWork, Line};
use lt_edges::Gate;
use std::sync::Wait;
use std::thread::Threads;

// One job more as worker 0, and what is final then is handed on.
fn go_on_line<R: Threads + Wait + Sync, W: LeafWork, G: Gate, O: OnFinal>(
    rt: &R,
    line: &mut Line<W>,
    gate: &G,
    pace: &mut Pace,
    workers: u32,
    on: &mut O,
    count: &mut u32,
) -> Begun
    requires free { IsUnclaimed (line_state line.old) }
    requires base { (m : List Mark) → W.fits line.old.work m → O.fits on.old m }
    ensures went { WentAlone (line_net_of W.does) (line_stand line.old) (line_stand line.new) }
    ensures given { Gives (sizes line.old.row) (line_state line.old) (line_state line.new) (O.given on.old) (O.given on.new) count.old count.new }
    ensures base { (m : List Mark) → O.fits on.old m → O.fits on.new m }
{
    let _entries = line.journal();
    let begun = go_on_alone(rt, line, gate, pace, workers);
    let _segments = line.segment_count();
    let end = line.front();
    match give_up_to(rt, line, on, count, end) {
        Ok(()) => begun,
        Err(_refused) => Begun::Ended,
    }
}

/// Does jobs as worker 0 until the line is settled, memory is refused, or leaves have shown to be dear and the next job is a leaf's.
/// It answers who is called then: all at once at a gate that may hold a worker until another comes. Each segment's effect is handed
/// on as soon as it is final.
pub(crate) fn begin_line<R: Threads + Wait + Sync, W: LeafWork, G: Gate, O: OnFinal>(
    rt: &R,
    line: &mut Line<W>,
    gate: &G,
    workers: u32,
    on: &mut O,
    count: &mut u32,
) -> Begun
    requires free { IsUnclaimed (line_state line.old) }
    requires base { (m : List Mark) → W.fits line.old.work m → O.fits on.old m }
    ensures went { WentAlone (line_net_of W.does) (line_stand line.old) (line_stand line.new) }
    ensures given { Gives (sizes line.old.row) (line_state line.old) (line_state line.new) (O.given on.old) (O.given on.new) count.old count.new }
    ensures base { (m : List Mark) → O.fits on.old m → O.fits on.new m }
{
    if gate.waits() {
        return Begun::All;
    }
    let mut pace = Pace::start(line.leaves());
    for _ in rt.forever() {
        let begun = go_on_line(rt, line, gate, &mut pace, workers, on, count);
        if begun != Begun::On {
            return begun;
        }
    }
    unreachable!()
}
