//! What is put behind a text: words, numbers, cells.
use itoa::Buffer;
use lt_face::NoMemory;
use lt_face::key::Key;
use lt_model::kind::Kind;
use lt_values::cell_text;

/// Puts these words behind a text, one after another.
pub fn push_all(text: &mut Vec<u8>, words: &[&[u8]]) -> Result<(), NoMemory> {
    for word in words {
        text.extend_from_slice(word)?;
    }
    Ok(())
}

/// Puts a word between quotes behind a text.
pub fn push_quoted(text: &mut Vec<u8>, word: &[u8]) -> Result<(), NoMemory> {
    push_all(text, &[b"\"", word, b"\""])
}

/// Puts a number behind a text.
pub fn push_number(text: &mut Vec<u8>, number: u64) -> Result<(), NoMemory> {
    let mut buffer = Buffer::new();
    text.extend_from_slice(buffer.format(number).as_bytes())?;
    Ok(())
}

/// Puts a cell as a constant behind a text.
pub fn push_cell(text: &mut Vec<u8>, kind: Kind, cell: Key) -> Result<(), NoMemory> {
    let told = cell_text(kind, cell.max(1));
    match kind {
        Kind::Int => push_all(text, &[told.as_bytes()]),
        Kind::Sym => push_all(text, &[b"'", told.as_bytes(), b"'"]),
    }
}
