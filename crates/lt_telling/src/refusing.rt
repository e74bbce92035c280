//! Errors of an input: of the line that was read last, or where an item has a fault.
use crate::telling::put_error;
use lt_edges::{Failed, Sink};
use lt_input::places::Spot;
use lt_input::script::{Script, Told};
use lt_report::put_line;

/// Tells an error of the line that was read last.
pub fn put_refusal<K: Sink>(
    sink: &mut K,
    script: &Script,
    code: u32,
    about: &str,
) -> Result<(), Failed> {
    let spot = Spot {
        line: script.line(),
        column: 1,
        code,
    };
    put_error(sink, spot, about.as_bytes())
}

/// Tells a fault, whose item was given up, and where a person reads it that lines are passed over behind it.
pub fn put_told<K: Sink>(
    sink: &mut K,
    script: &Script,
    talks: bool,
    told: &Told,
) -> Result<(), Failed> {
    put_error(sink, told.spot, &told.about)?;
    if talks && script.is_passing() {
        put_line(
            sink,
            &[b"  what follows is passed over up to the end of this item; .cancel stops that"],
        )?;
    }
    Ok(())
}
