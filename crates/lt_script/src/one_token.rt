//! Parts of the language that are one token.
ghost use Rattle.std.specs.Prelude.{◌≡◌, ◌<◌, IfOk};
ghost use Rattle.lt_reading.specs.Reading.{token as this_token, next_is, in_table};
ghost use Rattle.lt_model.specs.Tokens.{word as word_shape, sign as sign_shape};
ghost use Rattle.lt_grammar.specs.Tokens.{same_shape};
ghost use Rattle.lt_grammar.specs.Grammar.{past};
ghost use Rattle.lt_grammar.specs.Productions.{stands, is_word as word_test, is_number as number_test, is_plus, name_at, quoted_at, op_at, other_ops, other_op_at, plus_at, need_at, kind_at};
ghost use Rattle.lt_script.specs.Reserved.{word_text, sign_text};
ghost use Rattle.lt_script.specs.Valued.{valued_number_at};
ghost use Rattle.lt_script.specs.View.{shape};
ghost use Rattle.lt_script.specs.Ahead.{shapes};
ghost use Rattle.lt_script.specs.Parsed.{Parses};

use crate::cursor::Cursor;
use crate::label::Label;
use crate::range::read_number;
use crate::refusal::{Cause, Refusal};
use crate::reserved::{Reserved, Sign};
use crate::token::{Lexeme, Token};
use lt_model::kind::Kind;
use lt_model::syntax::Op;

impl<'a> Token<'a> {
    /// Whether it is this word.
    #[inline(always)]
    pub fn is_word(&self, word: Reserved) -> bool
        ensures { result ≡ same_shape (shape self.now) (word_shape (word_text word)) }
    {
        match self.lexeme {
            Lexeme::Reserved(known) => known == word,
            _ => false,
        }
    }

    /// Whether it is this sign.
    #[inline(always)]
    pub fn is_sign(&self, sign: Sign) -> bool
        ensures { result ≡ same_shape (shape self.now) (sign_shape (sign_text sign)) }
    {
        match self.lexeme {
            Lexeme::Sign(known) => known == sign,
            _ => false,
        }
    }

    // The comparison that it is, but `=`.
    fn other_op(&self) -> Option<Op>
        ensures { result ≡ in_table same_shape other_ops (shape self.now) }
    {
        if self.is_sign(Sign::NotEqual) {
            return Some(Op::Ne);
        }
        if self.is_sign(Sign::Less) {
            return Some(Op::Lt);
        }
        if self.is_sign(Sign::LessOrEqual) {
            return Some(Op::Le);
        }
        if self.is_sign(Sign::Greater) {
            return Some(Op::Gt);
        }
        if self.is_sign(Sign::GreaterOrEqual) {
            return Some(Op::Ge);
        }
        None
    }
}

/// What is answered where the token that stands next isn't allowed.
pub fn not_allowed<T>() -> Result<T, Refusal>
    ensures { result ≡ Err (Refusal.Fault Cause.NotAllowed) }
{
    Err(Refusal::Fault(Cause::NotAllowed))
}

impl<'a> Cursor<'a> {
    /// Reads this very word.
    #[inline(always)]
    pub fn word(&mut self, word: Reserved) -> Result<(), Refusal>
        ensures { Parses (λ x. Prim.tt) result self.old self.new (this_token same_shape (word_shape (word_text word))) }
    {
        match self.peek() {
            Some(first) if first.is_word(word) => {
                self.advance();
                Ok(())
            }
            _ => not_allowed(),
        }
    }

    /// Reads this very sign.
    #[inline(always)]
    pub fn sign(&mut self, sign: Sign) -> Result<(), Refusal>
        ensures { Parses (λ x. Prim.tt) result self.old self.new (this_token same_shape (sign_shape (sign_text sign))) }
    {
        match self.peek() {
            Some(first) if first.is_sign(sign) => {
                self.advance();
                Ok(())
            }
            _ => not_allowed(),
        }
    }

    /// Whether this word stands next.
    #[inline(always)]
    pub fn word_stands(&self, word: Reserved) -> bool
        ensures { result ≡ stands (word_shape (word_text word)) (shapes self.now) }
    {
        match self.peek() {
            Some(first) => first.is_word(word),
            None => false,
        }
    }

    /// Whether this sign stands next.
    #[inline(always)]
    pub fn sign_stands(&self, sign: Sign) -> bool
        ensures { result ≡ stands (sign_shape (sign_text sign)) (shapes self.now) }
    {
        match self.peek() {
            Some(first) => first.is_sign(sign),
            None => false,
        }
    }

    /// Whether any word stands next.
    pub fn any_word_stands(&self) -> bool
        ensures { result ≡ next_is word_test (shapes self.now) }
    {
        match self.peek() {
            Some(first) => matches!(first.lexeme, Lexeme::Word(_) | Lexeme::Reserved(_)),
            None => false,
        }
    }

    /// Whether a number stands next.
    pub fn number_stands(&self) -> bool
        ensures { result ≡ next_is number_test (shapes self.now) }
    {
        match self.peek() {
            Some(first) => matches!(first.lexeme, Lexeme::Number(_)),
            None => false,
        }
    }

    /// A word that isn't reserved.
    pub fn name(&mut self) -> Result<Label<'a>, Refusal>
        ensures { Parses (λ x. x.bytes.now) result self.old self.new name_at }
    {
        match self.peek() {
            Some(
                Token {
                    lexeme: Lexeme::Word(word),
                    ..
                },
            ) => {
                self.advance();
                Ok(word.label)
            }
            _ => not_allowed(),
        }
    }

    /// A number, in the range of an int, behind a minus or without one.
    pub fn number(&mut self, minus: bool) -> Result<u64, Refusal>
        ensures read { Parses (λ n. n) result self.old self.new (valued_number_at minus) }
        ensures within { IfOk result (λ n. n < past minus) }
    {
        match self.peek() {
            Some(
                Token {
                    lexeme: Lexeme::Number(digits),
                    ..
                },
            ) => {
                let Some(number) = read_number(minus, digits) else {
                    return Err(Refusal::Fault(Cause::TooLarge));
                };
                self.advance();
                Ok(number)
            }
            _ => not_allowed(),
        }
    }

    /// A symbol between quotes.
    pub fn quoted(&mut self) -> Result<Label<'a>, Refusal>
        ensures { Parses (λ x. x.bytes.now) result self.old self.new quoted_at }
    {
        match self.peek() {
            Some(
                Token {
                    lexeme: Lexeme::Symbol(label),
                    ..
                },
            ) => {
                self.advance();
                Ok(label)
            }
            _ => not_allowed(),
        }
    }

    /// A comparison.
    #[tactic(auto, using(crate::proofs::Choice::op_equals, crate::proofs::Choice::op_other))]
    pub fn op(&mut self) -> Result<Op, Refusal>
        ensures { Parses (λ x. x) result self.old self.new op_at }
    {
        if self.sign_stands(Sign::Equal) {
            self.sign(Sign::Equal)?;
            return Ok(Op::Eq);
        }
        self.other_op()
    }

    /// A comparison but `=`.
    #[tactic(auto, unfolding(lt_grammar::specs::Productions::other_op_at))]
    pub fn other_op(&mut self) -> Result<Op, Refusal>
        ensures { Parses (λ x. x) result self.old self.new other_op_at }
    {
        match self.peek() {
            Some(first) => match first.other_op() {
                Some(op) => {
                    self.advance();
                    Ok(op)
                }
                None => not_allowed(),
            },
            None => not_allowed(),
        }
    }

    /// Whether a plus or a minus stands next.
    pub fn plus_stands(&self) -> bool
        ensures { result ≡ next_is is_plus (shapes self.now) }
    {
        match self.peek() {
            Some(first) => first.is_sign(Sign::Plus) || first.is_sign(Sign::Minus),
            None => false,
        }
    }

    /// A plus or a minus; whether it is a minus.
    #[tactic(auto, unfolding(lt_grammar::specs::Productions::plus_at))]
    pub fn plus(&mut self) -> Result<bool, Refusal>
        ensures { Parses (λ b. b) result self.old self.new plus_at }
    {
        match self.peek() {
            Some(first) if first.is_sign(Sign::Plus) => {
                self.advance();
                Ok(false)
            }
            Some(first) if first.is_sign(Sign::Minus) => {
                self.advance();
                Ok(true)
            }
            _ => not_allowed(),
        }
    }

    /// Whether some answer is required, or none.
    #[tactic(auto, unfolding(lt_grammar::specs::Productions::need_at))]
    pub fn need(&mut self) -> Result<bool, Refusal>
        ensures { Parses (λ b. b) result self.old self.new need_at }
    {
        match self.peek() {
            Some(first) if first.is_word(Reserved::Some) => {
                self.advance();
                Ok(true)
            }
            Some(first) if first.is_word(Reserved::None) => {
                self.advance();
                Ok(false)
            }
            _ => not_allowed(),
        }
    }

    /// The kind of a column.
    #[tactic(auto, unfolding(lt_grammar::specs::Productions::kind_at))]
    pub fn kind(&mut self) -> Result<Kind, Refusal>
        ensures { Parses (λ k. k) result self.old self.new kind_at }
    {
        match self.peek() {
            Some(first) if first.is_word(Reserved::Int) => {
                self.advance();
                Ok(Kind::Int)
            }
            Some(first) if first.is_word(Reserved::Sym) => {
                self.advance();
                Ok(Kind::Sym)
            }
            _ => not_allowed(),
        }
    }
}
