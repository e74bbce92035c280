//! Where the statements of a batch stand in its text.
use crate::tokens::{behind_blank, first_token};
use lt_face::NoMemory;
use std::alloc::Global;

// A statement that begins at the front of `from`, and ends where `behind` begins: its place in the text, and its own text.
fn cut<'a>(text: &'a [u8], from: &'a [u8], behind: &[u8]) -> (usize, &'a [u8]) {
    let from = behind_blank(from);
    let (found, _) = from.split_at(from.len().saturating_sub(behind.len()));
    (text.len().saturating_sub(from.len()), found)
}

/// The place and the text of a statement, from the text of its batch, by the numbers of its program and its own, both from 1.
pub fn statement_at(text: &[u8], program: usize, statement: u32) -> (usize, &[u8]) {
    let mut rest = text;
    let mut from = text;
    let mut programs = 0usize;
    let mut statements = 1u32;
    for _ in 0..text.len() {
        let Some((token, behind)) = first_token(rest) else {
            break;
        };
        rest = behind;
        if token == b"program".as_slice() {
            programs = programs.saturating_add(1);
            statements = 1;
            from = match first_token(behind) {
                Some((_, behind)) => behind,
                None => behind,
            };
        } else if token == b";".as_slice() {
            if programs == program && statements == statement {
                return cut(text, from, behind);
            }
            statements = statements.saturating_add(1);
            from = behind;
        }
    }
    (0, &[])
}

/// The tokens of a text on one line.
pub fn on_one_line(alloc: Global, text: &[u8]) -> Result<Vec<u8>, NoMemory> {
    let mut line = Vec::new(alloc);
    for word in text.split(|byte| byte.is_ascii_whitespace()) {
        if !word.is_empty() {
            if !line.is_empty() {
                line.extend_from_slice(b" ")?;
            }
            line.extend_from_slice(word)?;
        }
    }
    Ok(line)
}
