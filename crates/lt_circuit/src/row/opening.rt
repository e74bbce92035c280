//! The opening of a line.
#![tactic(auto)]

ghost use Rattle.std.specs.Prelude.{◌≡◌, ℕ, ◌≤◌, List, IfOk, length};
ghost use Rattle.lt_model.specs.declared.mark.Mark.{Mark as MarkType};
ghost use Rattle.lt_net.specs.Line.{line_net, AreSizes};
ghost use Rattle.lt_net.specs.Net.{opening};
ghost use Rattle.lt_circuit.specs.Row.{most_segments, row_of, sizes, standing_in, AreOpening};

use super::Row;
use crate::segment::Segment;
use lt_face::NoMemory;
use std::alloc::Global;

/// The segments over so many leaves each. Each but the last hands on to the next.
fn opened(alloc: Global, leaves: &[u32]) -> Result<Vec<Segment>, NoMemory>
    requires { AreSizes leaves.now }
    ensures { IfOk result (λ segments. AreOpening segments.items leaves.now (length leaves.now)) }
{
    let mut segments = Vec::with_capacity(alloc, leaves.len())?;
    for s in 0..leaves.len() {
        let on = s + 1 < leaves.len();
        let segment = Segment::opening(alloc, leaves[s], on)?;
        segments.push(segment)?;
    }
    Ok(segments)
}

impl Row {
    /// The opening over so many leaves in each segment.
    pub fn opening(alloc: Global, leaves: &[u32]) -> Result<Row, NoMemory>
        requires few { AreSizes leaves.now }
        requires short { length leaves.now ≤ most_segments }
        ensures sizes { IfOk result (λ row. sizes row ≡ leaves.now) }
        ensures free { IfOk result (λ row. standing_in row ≡ 0) }
        ensures state { IfOk result (λ row. (does : ℕ → List MarkType → List MarkType) → row_of row ≡ opening (line_net does leaves.now)) }
    {
        let segments = opened(alloc, leaves)?;
        Ok(Row { segments })
    }
}
