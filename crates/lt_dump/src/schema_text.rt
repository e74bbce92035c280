//! Declarations, as they are written.
use lt_face::NoMemory;
use lt_input::pieces::push_all;
use lt_model::kind::{Kind, KindList};
use lt_model::name::Name;
use std::alloc::Global;

fn kind_text(kind: Kind) -> &'static str {
    match kind {
        Kind::Int => "int",
        Kind::Sym => "sym",
    }
}

// What stands before the kind with this number.
fn before(number: usize, keys: usize) -> &'static str {
    if number == 0 {
        return "";
    }
    if number == keys {
        return " -> ";
    }
    ", "
}

/// The declaration of a relation, without a line feed.
pub fn declaration(
    alloc: Global,
    name: &Name,
    kinds: &KindList,
    keys: u32,
) -> Result<Vec<u8>, NoMemory> {
    let mut text = Vec::new(alloc);
    push_all(&mut text, &[b"relation ", name.as_bytes(), b"("])?;
    for (number, kind) in kinds.as_slice().iter().enumerate() {
        let before = before(number, keys as usize);
        push_all(&mut text, &[before.as_bytes(), kind_text(*kind).as_bytes()])?;
    }
    text.extend_from_slice(b");")?;
    Ok(text)
}
