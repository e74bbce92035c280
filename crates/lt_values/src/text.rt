//! What cells are written as.
ghost use Rattle.std.specs.Prelude.{◌≡◌, ◌≤◌, ℕ, List, take, length, take_while, not, ◌==◌};
ghost use Rattle.lt_model.specs.Cells.{cell_text, sym_text};

use crate::ints::{LAST_INT, int_of};
use itoa::Buffer;
use lt_face::key::Key;
use lt_model::kind::Kind;
use std::marker::Model;

/// The text of a cell: at most 20 bytes, which lie in the value itself.
#[derive(Drop)]
pub struct CellText {
    bytes: [u8; 20],
    len: usize,
}

impl Model for CellText {
    ghost Value = { List ℕ };

    ghost view = { λ t. take t.len t.bytes };

    ghost invariant = { λ t. t.len ≤ 20 };
}

impl CellText {
    fn new(text: &[u8]) -> CellText
        requires { length text.now ≤ 20 }
        ensures { result ≡ text.now }
    {
        let mut bytes = [0; 20];
        bytes[..text.len()].copy_from_slice(text);
        CellText {
            bytes,
            len: text.len(),
        }
    }

    /// The bytes in order.
    pub fn as_bytes(&self) -> &[u8]
        ensures bytes { result.now ≡ self.now }
        ensures bound { length self.now ≤ 20 }
    {
        &self.bytes[..self.len]
    }
}

/// The text of a cell: of an int its decimal, with a `-` below 0; of a symbol its bytes. A key above 2^64 has no text as
/// an int.
pub fn cell_text(kind: Kind, cell: Key) -> CellText
    requires { 1 ≤ cell }
    ensures { result ≡ cell_text kind cell }
{
    match kind {
        Kind::Int => int_text(cell),
        Kind::Sym => sym_text(cell),
    }
}

fn int_text(cell: Key) -> CellText
    requires { 1 ≤ cell }
    ensures { result ≡ cell_text Kind.Int cell }
{
    if cell > LAST_INT {
        return CellText::new(b"");
    }
    let mut buffer = Buffer::new();
    CellText::new(buffer.format(int_of(cell)).as_bytes())
}

fn sym_text(cell: Key) -> CellText
    ensures { result ≡ sym_text cell }
{
    let digits = cell.to_be_bytes();
    let (_, digits) = digits.split_at(1);
    CellText::new(before_zero(digits))
}

// The bytes before the first that is 0.
fn before_zero(bytes: &[u8]) -> &[u8]
    ensures { result.now ≡ take_while (λ b. not (b == 0)) bytes.now }
{
    for (i, byte) in bytes.iter().enumerate() {
        if *byte == 0 {
            return &bytes[..i];
        }
    }
    bytes
}
