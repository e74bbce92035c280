//! Terms, and relations with their arguments.
ghost use Rattle.std.specs.Prelude.{◌≡◌, ◌∷◌, ◌-◌, IfOk, drop};
ghost use Rattle.lt_face.specs.Limits.{most_columns};
ghost use Rattle.lt_reading.specs.Reading.{next_is, given, led, past_comma};
ghost use Rattle.lt_model.specs.Grammar.{comma};
ghost use Rattle.lt_grammar.specs.Tokens.{same_shape};
ghost use Rattle.lt_grammar.specs.Productions.{starts_term as begins_term};
ghost use Rattle.lt_script.specs.Valued.{int_term, valued_number_at, valued_constant_at, valued_term_at, valued_terms_at, valued_head_at};
ghost use Rattle.lt_script.specs.Ahead.{shapes};
ghost use Rattle.lt_script.specs.Parsed.{Parses, Refuses, further};

use crate::cells::{int_cell, symbol_cell};
use crate::cursor::Cursor;
use crate::refusal::{Cause, Refusal};
use crate::reserved::Sign;
use crate::token::Lexeme;
use lt_face::limits::MOST_COLUMNS;
use lt_model::kind::Kind;
use lt_model::syntax::{Head, Term, TermList};
use std::alloc::Global;

// The room that a list of terms begins with: most have no more.
const FIRST_ROOM: usize = 4;

impl<'a> Cursor<'a> {
    // A number as a term, behind a minus or without one.
    fn numeral(&mut self, minus: bool) -> Result<Term, Refusal>
        ensures { Parses (λ x. x) result self.old self.new (given (λ n. int_term minus n) (valued_number_at minus)) }
    {
        let number = self.number(minus)?;
        Ok(Term::Cell(Kind::Int, int_cell(minus, number)))
    }

    /// A term that is no name.
    #[tactic(auto, using(crate::proofs::Choice::constant_minus, crate::proofs::Choice::constant_number, crate::proofs::Choice::constant_quoted))]
    pub fn constant(&mut self) -> Result<Term, Refusal>
        ensures { Parses (λ x. x) result self.old self.new valued_constant_at }
    {
        if self.sign_stands(Sign::Minus) {
            self.sign(Sign::Minus)?;
            return self.numeral(true);
        }
        if self.number_stands() {
            return self.numeral(false);
        }
        let text = self.quoted()?;
        Ok(Term::Cell(Kind::Sym, symbol_cell(&text)))
    }

    /// A name or a constant.
    #[tactic(auto, using(crate::proofs::Choice::term_name, crate::proofs::Choice::term_constant))]
    pub fn term(&mut self, alloc: Global) -> Result<Term, Refusal>
        ensures { Parses (λ x. x) result self.old self.new valued_term_at }
    {
        if self.any_word_stands() {
            let name = self.name()?;
            return Ok(Term::Name(name.to_name(alloc)));
        }
        self.constant()
    }

    /// Whether a term may begin with the next token.
    pub fn starts_term(&self) -> bool
        ensures { result ≡ next_is begins_term (shapes self.now) }
    {
        match self.peek() {
            Some(first) => match first.lexeme {
                Lexeme::Word(_) => true,
                Lexeme::Reserved(_) => false,
                Lexeme::Number(_) => true,
                Lexeme::Symbol(_) => true,
                Lexeme::Sign(_) => first.is_sign(Sign::Minus),
            },
            None => false,
        }
    }

    // Why no term past the last is read: the comma may stand there, but nothing that begins one behind it.
    fn too_many_terms(&mut self) -> Refusal
        ensures { Refuses result self.old self.new (past_comma begins_term) }
    {
        if self.peek().is_some() {
            self.advance();
            if self.starts_term() {
                return Refusal::Fault(Cause::TooMany);
            }
        }
        Refusal::Fault(Cause::NotAllowed)
    }

    fn next_term(&mut self, alloc: Global) -> Result<Term, Refusal>
        ensures { Parses (λ x. x) result self.old self.new (led same_shape comma valued_term_at) }
    {
        self.sign(Sign::Comma)?;
        let term = self.term(alloc)?;
        Ok(term)
    }

    // The terms after the first.
    fn further_terms(&mut self, alloc: Global, first: Term) -> Result<Vec<Term>, Refusal>
        ensures read { Parses (λ v. drop 1 v.items) result self.old self.new (further begins_term valued_term_at (most_columns - 1)) }
        ensures first { IfOk result (λ v. v.items ≡ first ∷ drop 1 v.items) }
    {
        let mut terms = Vec::with_capacity(alloc, FIRST_ROOM)?;
        terms.push(first)?;
        'terms: while self.sign_stands(Sign::Comma) {
            if terms.len() == MOST_COLUMNS {
                return Err(self.too_many_terms());
            }
            let term = self.next_term(alloc)?;
            terms.push(term)?;
        }
        Ok(terms)
    }

    /// At most eight terms between parentheses.
    #[tactic(auto, unfolding(crate::specs::Valued::valued_terms_at))]
    pub fn terms(&mut self, alloc: Global) -> Result<TermList, Refusal>
        ensures { Parses (λ v. v) result self.old self.new valued_terms_at }
    {
        self.sign(Sign::Open)?;
        let first = self.term(alloc)?;
        let terms = self.further_terms(alloc, first)?;
        self.sign(Sign::Close)?;
        Ok(TermList::from_vec(terms))
    }

    /// A relation and its arguments.
    #[tactic(auto, unfolding(crate::specs::Valued::valued_head_at))]
    pub fn head(&mut self, alloc: Global) -> Result<Head, Refusal>
        ensures { Parses (λ x. x) result self.old self.new valued_head_at }
    {
        let relation = self.name()?;
        let terms = self.terms(alloc)?;
        Ok(Head {
            relation: relation.to_name(alloc),
            terms,
        })
    }
}
