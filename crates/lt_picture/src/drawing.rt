//! From the input to the picture.
ghost use Rattle.std.specs.Prelude.{◌≡◌, IfErr};
ghost use Rattle.lt_picture.specs.Stops.{IsRefusal};

use crate::input::read_all;
use crate::picture::write_picture;
use crate::refusal::Refusal;
use crate::stop::Stop;
use crate::trace::batches_of;
use lt_edges::{Sink, Source};
use std::alloc::Global;
use std::str;

/// Reads a report with traces and writes their picture. Of an input that is refused nothing is written.
pub fn draw<S: Source, K: Sink>(alloc: Global, source: &mut S, sink: &mut K) -> Result<(), Stop>
    ensures { IfErr result (λ stop. IsRefusal stop → K.holds sink.new ≡ K.holds sink.old) }
{
    let bytes = read_all(alloc, source)?;
    let Ok(text) = str::from_utf8(&bytes) else {
        return Err(Stop::Refused(Refusal::NoText));
    };
    let batches = batches_of(alloc, text)?;
    write_picture(alloc, &batches, sink)
}
