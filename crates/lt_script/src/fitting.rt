//! Whether bytes begin with a form's text but for its constants, and which constants they have.
ghost use Rattle.std.specs.Prelude.{◌≡◌, ◌++◌, List, ℕ, IfOk, IfSome};
ghost use Rattle.lt_script.specs.Forms.{IsConstant, HasForm};
ghost use Rattle.lt_script.specs.declared.slots.Blank.TheVariants as blanks;

use crate::cells::{int_cell, symbol_cell};
use crate::label::Label;
use crate::range::read_number;
use crate::runs::{digits_len, word_len};
use crate::slots::{Blank, Slot};
use lt_face::key::Key;
use lt_face::memory::NoMemory;
use lt_model::form::CellList;
use lt_model::name::LONGEST;
use std::alloc::Global;

/// The bytes behind a statement, and how many lines it goes down.
#[derive(Clone, Copy)]
pub struct Behind<'a> {
    pub rest: &'a [u8],
    pub lines: u64,
}

/// What stands behind this text, where the bytes begin with it.
fn left_behind<'a>(bytes: &'a [u8], text: &[u8]) -> Option<&'a [u8]>
    ensures { IfSome result (λ rest. bytes.now ≡ text.now ++ rest.now) }
{
    if bytes.len() < text.len() {
        return None;
    }
    let (front, rest) = bytes.split_at(text.len());
    if front == text {
        return Some(rest);
    }
    None
}

// Ten times a number below this and a digit are in range.
const SURE: u64 = 922_337_203_685_477_580;

// The cell of a number at the front, and what stands behind it: all digits that stand there. Nothing is found where no other byte ends
// them, since a form's text goes on behind each of its constants.
fn number_at(minus: bool, bytes: &[u8]) -> Option<(Key, &[u8])>
    ensures { IfSome result (λ found. (digits : List ℕ) × (bytes.now ≡ digits ++ found.1.now) × IsConstant (blanks.Number minus) digits found.0) }
{
    let mut value: u64 = 0;
    'digits: for (i, byte) in bytes.iter().enumerate() {
        if !matches!(*byte, b'0'..=b'9') {
            if i == 0 {
                return None;
            }
            let (_, rest) = bytes.split_at(i);
            return Some((int_cell(minus, value), rest));
        }
        if value >= SURE {
            return long_number_at(minus, bytes);
        }
        value = value * 10 + u64::from(*byte - b'0');
    }
    None
}

// The same of a number of any length.
fn long_number_at(minus: bool, bytes: &[u8]) -> Option<(Key, &[u8])>
    ensures { IfSome result (λ found. (digits : List ℕ) × (bytes.now ≡ digits ++ found.1.now) × IsConstant (blanks.Number minus) digits found.0) }
{
    let len = digits_len(bytes);
    if len == 0 {
        return None;
    }
    let (digits, rest) = bytes.split_at(len);
    // One number is in range behind a minus alone. It is left to the parser.
    let number = read_number(false, digits)?;
    Some((int_cell(minus, number), rest))
}

/// The cell of a symbol's bytes at the front, and what stands behind them.
#[tactic(auto, using(crate::proofs::Words::run_is_plain))]
fn symbol_at(bytes: &[u8]) -> Option<(Key, &[u8])>
    ensures { IfSome result (λ found. (text : List ℕ) × (bytes.now ≡ text ++ found.1.now) × IsConstant blanks.Symbol text found.0) }
{
    let len = word_len(bytes);
    if len == 0 || len > LONGEST {
        return None;
    }
    let (bytes, rest) = bytes.split_at(len);
    Some((symbol_cell(&Label { bytes }), rest))
}

fn constant_at(blank: Blank, bytes: &[u8]) -> Option<(Key, &[u8])>
    ensures { IfSome result (λ found. (text : List ℕ) × (bytes.now ≡ text ++ found.1.now) × IsConstant blank text found.0) }
{
    match blank {
        Blank::Number { minus } => number_at(minus, bytes),
        Blank::Symbol => symbol_at(bytes),
    }
}

/// The constants that the bytes at the front have in the slots of the text, and what stands behind them. None where they aren't the
/// text but for its constants, or where a constant isn't allowed there.
pub fn fitting<'a>(
    alloc: Global,
    slots: &[Slot],
    text: &[u8],
    bytes: &'a [u8],
) -> Result<Option<(CellList, &'a [u8])>, NoMemory>
    ensures { IfOk result (λ found. IfSome found (λ of. (front : List ℕ) × (bytes.now ≡ front ++ of.1.now) × HasForm slots.now text.now front of.0.items)) }
{
    let mut cells = CellList::new(alloc);
    let mut text = text;
    let mut left = bytes;
    for slot in slots {
        if slot.before > text.len() {
            return Ok(None);
        }
        let (chunk, of_slot) = text.split_at(slot.before);
        if slot.len > of_slot.len() {
            return Ok(None);
        }
        let (_, further) = of_slot.split_at(slot.len);
        text = further;
        let Some(at) = left_behind(left, chunk) else {
            return Ok(None);
        };
        let Some((cell, rest)) = constant_at(slot.blank, at) else {
            return Ok(None);
        };
        cells.push(cell)?;
        left = rest;
    }
    match left_behind(left, text) {
        Some(rest) => Ok(Some((cells, rest))),
        None => Ok(None),
    }
}
