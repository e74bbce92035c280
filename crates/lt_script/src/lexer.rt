//! Bytes divided into tokens, one at a time. Each byte is looked at a bounded number of times.
ghost use Rattle.std.specs.Prelude.{◌≡◌, ◌≤◌, ◌<◌, ◌+◌, ◌^◌, length};
ghost use Rattle.std.specs.List.{prefix_len};
ghost use Rattle.lt_model.specs.Tokens.{tokens_at, word_at, number_at, symbol_at, sign_at, in_word};
ghost use Rattle.lt_script.specs.View.{IsFirst, IsNext, IsGapless};
ghost use Rattle.lt_script.specs.Pieces.{Skipped, Opened};

use crate::label::{Label, Unreserved};
use crate::reserved::{find_reserved, find_sign};
use crate::runs::{digits_len, line_len, word_len};
use crate::token::{Lexeme, Token};
use lt_model::name::LONGEST;

/// The next token, the end of the bytes, or the code of a fault inside a token.
#[derive(Clone, Copy)]
pub enum Lexed<'a> {
    Token(Token<'a>),
    End,
    Broken(u32),
}

/// The bytes that are left, and the line on which they begin.
#[derive(Clone, Copy)]
pub struct Lexer<'a> {
    pub rest: &'a [u8],
    pub line: u64,
}

impl<'a> Lexer<'a> {
    /// At the first of these bytes, on line 1.
    pub fn over(bytes: &'a [u8]) -> Lexer<'a>
        ensures rest { result.rest.now ≡ bytes.now }
        ensures line { result.line ≡ 1 }
        ensures fits { result.line + length result.rest.now < 2 ^ 64 }
    {
        Lexer {
            rest: bytes,
            line: 1,
        }
    }

    /// Goes past the next token. Where the bytes end, it stands at their end; at a fault inside a token, on the fault's line.
    #[tactic(auto, using(crate::proofs::Firsts::next_letter, crate::proofs::Firsts::next_line, crate::proofs::Firsts::next_digit, crate::proofs::Firsts::next_quote, crate::proofs::Firsts::next_other, crate::proofs::Opens::opened_letter, crate::proofs::Opens::opened_line, crate::proofs::Opens::opened_digit, crate::proofs::Opens::opened_quote, crate::proofs::Opens::opened_other, crate::proofs::Opens::opened_end))]
    pub fn next(&mut self) -> Lexed<'a>
        requires { self.old.line + length self.old.rest.now < 2 ^ 64 }
        ensures next { IsNext result self.new.line self.new.rest.now (tokens_at self.old.line self.old.rest.now) }
        ensures opened { Opened result self.old.line self.old.rest.now self.new.line self.new.rest.now }
        ensures down { self.old.line ≤ self.new.line }
        ensures fits { self.new.line + length self.new.rest.now < 2 ^ 64 }
    {
        self.skip_gap();
        let Some((first, after)) = self.rest.split_first() else {
            return Lexed::End;
        };
        match *first {
            b'a'..=b'z' | b'_' => self.word(),
            b'0'..=b'9' => self.number(),
            b'\'' => {
                self.rest = after;
                self.symbol()
            }
            _ => self.sign(),
        }
    }

    /// Goes to the next byte that is no white space and in no comment.
    #[tactic(auto, using(crate::proofs::Gaps::over_white, crate::proofs::Gaps::over_feed, crate::proofs::Gaps::over_comment, crate::proofs::Skips::skip_white, crate::proofs::Skips::skip_feed, crate::proofs::Skips::skip_comment, crate::proofs::Skips::skip_none))]
    pub fn skip_gap(&mut self)
        requires { self.old.line + length self.old.rest.now < 2 ^ 64 }
        ensures same { tokens_at self.new.line self.new.rest.now ≡ tokens_at self.old.line self.old.rest.now }
        ensures gapless { IsGapless self.new.rest.now }
        ensures skipped { Skipped self.old.line self.old.rest.now self.new.line self.new.rest.now }
        ensures down { self.old.line ≤ self.new.line }
        ensures fits { self.new.line + length self.new.rest.now < 2 ^ 64 }
    {
        'bytes: while let Some((first, rest)) = self.rest.split_first() {
            match *first {
                b' ' | b'\t' | b'\r' => self.rest = rest,
                b'\n' => {
                    self.line += 1;
                    self.rest = rest;
                }
                b'#' => {
                    let (_, after) = rest.split_at(line_len(rest));
                    self.rest = after;
                }
                _ => return,
            }
        }
    }

    fn token(&self, lexeme: Lexeme<'a>) -> Lexed<'a>
        ensures { result ≡ Lexed.Token (record { lexeme = lexeme.entry; line = self.now.line }) }
    {
        Lexed::Token(Token {
            lexeme,
            line: self.line,
        })
    }

    #[tactic(auto, using(crate::proofs::Words::run_is_plain))]
    fn word(&mut self) -> Lexed<'a>
        requires { 0 < prefix_len in_word self.old.rest.now }
        ensures first { IsFirst result self.old.line self.new.rest.now (word_at self.old.rest.now) }
        ensures line { self.new.line ≡ self.old.line }
        ensures left { length self.new.rest.now ≤ length self.old.rest.now }
    {
        let len = word_len(self.rest);
        if len > LONGEST {
            return Lexed::Broken(5);
        }
        let (bytes, rest) = self.rest.split_at(len);
        self.rest = rest;
        match find_reserved(bytes) {
            Some(word) => self.token(Lexeme::Reserved(word)),
            None => {
                let label = Label { bytes };
                self.token(Lexeme::Word(Unreserved { label }))
            }
        }
    }

    fn number(&mut self) -> Lexed<'a>
        ensures first { IsFirst result self.old.line self.new.rest.now (number_at self.old.rest.now) }
        ensures line { self.new.line ≡ self.old.line }
        ensures left { length self.new.rest.now ≤ length self.old.rest.now }
    {
        let (text, rest) = self.rest.split_at(digits_len(self.rest));
        self.rest = rest;
        self.token(Lexeme::Number(text))
    }

    // Behind the quote.
    #[tactic(auto, using(crate::proofs::Words::run_is_plain))]
    fn symbol(&mut self) -> Lexed<'a>
        ensures first { IsFirst result self.old.line self.new.rest.now (symbol_at self.old.rest.now) }
        ensures line { self.new.line ≡ self.old.line }
        ensures left { length self.new.rest.now ≤ length self.old.rest.now }
    {
        let len = word_len(self.rest);
        let (bytes, rest) = self.rest.split_at(len);
        match rest {
            [] => Lexed::Broken(7),
            [b'\'', after @ ..] => {
                if len == 0 || len > LONGEST {
                    return Lexed::Broken(4);
                }
                self.rest = after;
                self.token(Lexeme::Symbol(Label { bytes }))
            }
            _ => Lexed::Broken(1),
        }
    }

    fn sign(&mut self) -> Lexed<'a>
        ensures first { IsFirst result self.old.line self.new.rest.now (sign_at self.old.rest.now) }
        ensures line { self.new.line ≡ self.old.line }
        ensures left { length self.new.rest.now ≤ length self.old.rest.now }
    {
        let Some((sign, len)) = find_sign(self.rest) else {
            return Lexed::Broken(1);
        };
        let (_, rest) = self.rest.split_at(len);
        self.rest = rest;
        self.token(Lexeme::Sign(sign))
    }
}
