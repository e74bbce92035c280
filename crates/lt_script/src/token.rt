//! Tokens.
use crate::label::{Label, Unreserved};
use crate::reserved::{Reserved, Sign};

/// What a token is, with its text.
#[derive(Clone, Copy)]
pub enum Lexeme<'a> {
    /// A word that isn't reserved.
    Word(Unreserved<'a>),
    Reserved(Reserved),
    Number(&'a [u8]),
    /// The text between the quotes.
    Symbol(Label<'a>),
    Sign(Sign),
}

/// A token, and the line on which it begins.
#[derive(Clone, Copy)]
pub struct Token<'a> {
    pub lexeme: Lexeme<'a>,
    pub line: u64,
}
