//! A text, written as it is.
ghost use Rattle.std.specs.Prelude.{OnOk};
ghost use Rattle.std.specs.Io.KnownBytes.{Appends};

use lt_edges::{Failed, Sink};

/// Writes a text as it is.
pub fn put_text<K: Sink>(sink: &mut K, text: &[u8]) -> Result<(), Failed>
    ensures { OnOk result (Appends (K.holds sink.old) (K.holds sink.new) text.now) }
{
    let mut rest = text;
    'rest: while !rest.is_empty() {
        let count = sink.write(rest)?;
        let (_, left) = rest.split_at(count);
        rest = left;
    }
    Ok(())
}
