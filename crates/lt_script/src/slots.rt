//! The places of constants in a statement's text.
ghost use Rattle.std.specs.Prelude.{◌≡◌, IfOk};
ghost use Rattle.lt_model.specs.Alike.{after, after_sign, is_negative};
ghost use Rattle.lt_script.specs.Placed.{ArePlaced, IsDivided, IsSlotOf, before_of};
ghost use Rattle.lt_script.specs.Reserved.{sign_text};
ghost use Rattle.lt_script.specs.View.{shape_of};

use crate::lexer::{Lexed, Lexer};
use crate::reserved::Sign;
use crate::token::{Lexeme, Token};
use lt_face::memory::NoMemory;
use std::alloc::Global;

/// What is written at a constant's place: digits, with a minus before them that is theirs or without one; or the bytes between
/// quotes.
#[derive(Clone, Copy)]
pub enum Blank {
    Number { minus: bool },
    Symbol,
}

/// A constant's place in a text: so many bytes behind the last one, and so long.
#[derive(Clone, Copy)]
pub struct Slot {
    pub before: usize,
    pub len: usize,
    pub blank: Blank,
}

// What is known of the tokens before a place.
#[derive(Clone, Copy)]
enum Before {
    // One that ends a term: a minus behind it is the sign of a sum.
    Term,
    // A minus that is a number's.
    Minus,
    Other,
}

impl Before {
    fn after(self, lexeme: Lexeme) -> Before
        ensures { before_of result ≡ after (before_of self) (shape_of lexeme.entry) }
    {
        match lexeme {
            Lexeme::Word(_) => Before::Term,
            Lexeme::Reserved(_) => Before::Other,
            Lexeme::Number(_) => Before::Term,
            Lexeme::Symbol(_) => Before::Term,
            Lexeme::Sign(sign) => self.after_sign(sign),
        }
    }

    fn after_sign(self, sign: Sign) -> Before
        ensures { before_of result ≡ after_sign (before_of self) (sign_text sign) }
    {
        match (self, sign) {
            (Before::Term, _) => Before::Other,
            (_, Sign::Minus) => Before::Minus,
            _ => Before::Other,
        }
    }

    fn is_minus(self) -> bool
        ensures { result ≡ is_negative (before_of self) }
    {
        matches!(self, Before::Minus)
    }
}

// The slot of a token that ends at `to`, where the last one ended at `from`, if it is a constant.
fn slot_of(lexeme: Lexeme, before: Before, from: usize, to: usize) -> Option<Slot>
    ensures { IsSlotOf result (shape_of lexeme.entry) (before_of before) from to }
{
    match lexeme {
        Lexeme::Number(digits) => Some(Slot {
            before: to.saturating_sub(digits.len()).saturating_sub(from),
            len: digits.len(),
            blank: Blank::Number {
                minus: before.is_minus(),
            },
        }),
        Lexeme::Symbol(label) => Some(Slot {
            before: to
                .saturating_sub(1)
                .saturating_sub(label.bytes.len())
                .saturating_sub(from),
            len: label.bytes.len(),
            blank: Blank::Symbol,
        }),
        _ => None,
    }
}

/// The places of the constants of a statement's text, in text order: it is tokens whatever comes behind it, and ends with a
/// semicolon.
pub fn slots_of(alloc: Global, text: &[u8]) -> Result<Vec<Slot>, NoMemory>
    requires { IsDivided text.now }
    ensures { IfOk result (λ slots. ArePlaced slots.items text.now) }
{
    let mut slots = Vec::new(alloc);
    let mut lexer = Lexer::over(text);
    let mut from: usize = 0;
    let mut before = Before::Other;
    'tokens: while let Lexed::Token(token) = lexer.next() {
        let to = text.len().saturating_sub(lexer.rest.len());
        let Token { lexeme, .. } = token;
        if let Some(slot) = slot_of(lexeme, before, from, to) {
            slots.push(slot)?;
            from = from.saturating_add(slot.before).saturating_add(slot.len);
        }
        before = before.after(lexeme);
    }
    Ok(slots)
}
