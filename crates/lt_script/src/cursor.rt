//! A place among the tokens of a source. Tokens are read one at a time, so memory doesn't grow with the source.
ghost use Rattle.std.specs.Prelude.{◌≡◌, ◌≢◌, ◌+◌, ◌<◌, ◌^◌, List, [], length};
ghost use Rattle.lt_model.specs.Tokens.{Token as ScriptToken};
ghost use Rattle.lt_script.specs.Ahead.{source_of, passed_tokens, behind, shapes, Stands, StandsAs, IsBehind, IsBehindSemicolon, IsPlace, MayChange};

use crate::lexer::{Lexed, Lexer};
use crate::standing::Standing;
use crate::tail::goes_on;
use crate::token::Token;
use std::marker::Model;

/// A source, and the tokens of it that are still to come.
#[derive(Drop)]
pub struct Cursor<'a> {
    start: Lexer<'a>,
    since: Lexer<'a>,
    next: Lexed<'a>,
    lexer: Lexer<'a>,
}

impl<'a> Model for Cursor<'a> {
    ghost use Rattle.lt_script.specs.Ahead.{Place, place_code, place_of, source_of, Stood};

    ghost Value = { Place };

    ghost coded = { place_code };

    ghost view = { λ c. place_of (source_of c.start) c.next c.lexer };

    ghost invariant = { λ c. Stood (source_of c.start) c.since c.next c.lexer };
}

impl<'a> Cursor<'a> {
    /// Before the first token of these bytes, which begin on the lexer's line.
    pub fn over(start: Lexer<'a>) -> Cursor<'a>
        requires { start.line + length start.rest.now < 2 ^ 64 }
        ensures source { result.source ≡ source_of start.entry }
        ensures passed { result.passed ≡ 0 }
    {
        let mut lexer = start;
        let next = lexer.next();
        Cursor {
            start,
            since: start,
            next,
            lexer,
        }
    }

    /// A cursor at the same place.
    pub fn copy(&self) -> Cursor<'a>
        ensures { result ≡ self.now }
    {
        Cursor {
            start: self.start,
            since: self.since,
            next: self.next,
            lexer: self.lexer,
        }
    }

    /// The next token.
    pub fn peek(&self) -> Option<Token<'a>>
        ensures { Stands result self.now }
    {
        match self.next {
            Lexed::Token(token) => Some(token),
            _ => None,
        }
    }

    /// What stands next, with its line.
    pub fn standing(&self) -> Standing
        ensures { StandsAs result self.now }
    {
        match self.next {
            Lexed::Token(token) => Standing::Token { line: token.line },
            Lexed::End => Standing::End {
                line: self.lexer.line,
            },
            Lexed::Broken(code) => Standing::Broken {
                line: self.lexer.line,
                code,
            },
        }
    }

    /// The bytes behind the last token that was passed, with their line.
    pub fn rest(&self) -> Lexer<'a>
        ensures place { IsBehind self.now.source (passed_tokens self.now) result.line result.rest.now }
        ensures ends { IsBehindSemicolon self.now.source (passed_tokens self.now) result.line result.rest.now }
        ensures whole { IsPlace self.now.source (passed_tokens self.now) result.line result.rest.now }
        ensures fits { result.line + length result.rest.now < 2 ^ 64 }
    {
        self.since
    }

    /// Whether more bytes behind the source may change what stands next.
    pub fn may_change(&self) -> bool
        ensures { MayChange result self.now }
    {
        let mut lexer = self.rest();
        lexer.skip_gap();
        goes_on(lexer.rest)
    }

    /// The bytes behind the next token, with their line. There is one.
    pub fn behind_next(&self) -> Lexer<'a>
        requires { shapes self.now ≢ [] }
        ensures place { IsPlace self.now.source (passed_tokens (behind self.now)) result.line result.rest.now }
        ensures fits { result.line + length result.rest.now < 2 ^ 64 }
    {
        self.lexer
    }

    /// Goes to this place of the source, right behind some of its tokens.
    pub fn go_to(&mut self, place: Lexer<'a>)
        requires place { (passed : List ScriptToken) × IsPlace self.old.source passed place.line place.rest.now }
        requires fits { place.line + length place.rest.now < 2 ^ 64 }
        ensures source { self.new.source ≡ self.old.source }
        ensures passed { (passed : List ScriptToken) → IsPlace self.old.source passed place.entry.line place.entry.rest.now → passed_tokens self.new ≡ passed }
    {
        self.since = place;
        self.lexer = place;
        self.next = self.lexer.next();
    }

    /// Goes past the next token, if there is one.
    pub fn advance(&mut self)
        ensures place { self.new ≡ behind self.old }
        ensures source { self.new.source ≡ self.old.source }
    {
        if let Lexed::Token(_) = self.next {
            self.since = self.lexer;
            self.next = self.lexer.next();
        }
    }
}
