//! The parts of a body.
ghost use mathlib.Core.Logic.{inl, inr};
ghost use Rattle.std.specs.Prelude.{◌≡◌, ◌∷◌, ◌-◌, IfOk, drop};
ghost use Rattle.lt_face.specs.Limits.{most_literals};
ghost use Rattle.lt_reading.specs.Reading.{led, given, next_is, past_comma};
ghost use Rattle.lt_model.specs.Grammar.{comma};
ghost use Rattle.lt_grammar.specs.Tokens.{same_shape, not_word};
ghost use Rattle.lt_grammar.specs.Productions.{starts_literal as begins_literal};
ghost use Rattle.lt_script.specs.Valued.{valued_head_at, equation_of, valued_equation_at, valued_rest_at, valued_literal_at, literal_of as literal_parts, valued_body_at, valued_where_at};
ghost use Rattle.lt_script.specs.Ahead.{shapes};
ghost use Rattle.lt_script.specs.Parsed.{Parses, Refuses, further};

use crate::cursor::Cursor;
use crate::label::Label;
use crate::refusal::{Cause, Refusal};
use crate::reserved::{Reserved, Sign};
use lt_face::limits::MOST_LITERALS;
use lt_model::syntax::{Head, Literal, LiteralList, Op, Term};
use std::alloc::Global;

impl<'a> Cursor<'a> {
    // A name that is equal to a term or to a sum.
    #[tactic(auto, using(crate::proofs::Choice::equation_sum, crate::proofs::Choice::equation_plain), unfolding(crate::specs::Valued::valued_equation_at))]
    fn equation(&mut self, alloc: Global, name: Label<'a>) -> Result<Literal, Refusal>
        ensures { Parses (λ x. x) result self.old self.new (given (λ x. equation_of name.entry.bytes.now x.0 x.1) valued_equation_at) }
    {
        self.sign(Sign::Equal)?;
        let left = self.term(alloc)?;
        if self.plus_stands() {
            let minus = self.plus()?;
            let right = self.term(alloc)?;
            return Ok(Literal::Sum {
                var: name.to_name(alloc),
                a: left,
                minus,
                b: right,
            });
        }
        Ok(Literal::Cmp {
            left: Term::Name(name.to_name(alloc)),
            op: Op::Eq,
            right: left,
        })
    }

    // What follows a name.
    #[tactic(auto, using(crate::proofs::Choice::rest_atom, crate::proofs::Choice::rest_equation, crate::proofs::Choice::rest_other))]
    fn rest_of_literal(&mut self, alloc: Global, name: Label<'a>) -> Result<Literal, Refusal>
        ensures { Parses (λ x. x) result self.old self.new (given (λ x. literal_parts (inr (inl (name.entry.bytes.now, x)))) valued_rest_at) }
    {
        if self.sign_stands(Sign::Open) {
            let terms = self.terms(alloc)?;
            return Ok(Literal::Atom(Head {
                relation: name.to_name(alloc),
                terms,
            }));
        }
        if self.sign_stands(Sign::Equal) {
            return self.equation(alloc, name);
        }
        let op = self.other_op()?;
        let right = self.term(alloc)?;
        Ok(Literal::Cmp {
            left: Term::Name(name.to_name(alloc)),
            op,
            right,
        })
    }

    // A negated atom.
    fn negated(&mut self, alloc: Global) -> Result<Literal, Refusal>
        ensures { Parses (λ x. x) result self.old self.new (given (λ h. literal_parts (inl h)) (led same_shape not_word valued_head_at)) }
    {
        self.word(Reserved::Not)?;
        let head = self.head(alloc)?;
        Ok(Literal::Absent(head))
    }

    #[tactic(auto, using(crate::proofs::Choice::literal_absent, crate::proofs::Choice::literal_named, crate::proofs::Choice::literal_constant))]
    fn literal(&mut self, alloc: Global) -> Result<Literal, Refusal>
        ensures { Parses (λ x. x) result self.old self.new valued_literal_at }
    {
        if self.word_stands(Reserved::Not) {
            return self.negated(alloc);
        }
        if self.any_word_stands() {
            let name = self.name()?;
            return self.rest_of_literal(alloc, name);
        }
        let left = self.constant()?;
        let op = self.op()?;
        let right = self.term(alloc)?;
        Ok(Literal::Cmp { left, op, right })
    }

    // Whether a literal may begin with the next token.
    fn starts_literal(&self) -> bool
        ensures { result ≡ next_is begins_literal (shapes self.now) }
    {
        if self.word_stands(Reserved::Not) {
            return true;
        }
        self.starts_term()
    }

    // Why no literal past the last is read: the comma may stand there, but nothing that begins one behind it.
    fn too_many_literals(&mut self) -> Refusal
        ensures { Refuses result self.old self.new (past_comma begins_literal) }
    {
        if self.peek().is_some() {
            self.advance();
            if self.starts_literal() {
                return Refusal::Fault(Cause::TooMany);
            }
        }
        Refusal::Fault(Cause::NotAllowed)
    }

    fn next_literal(&mut self, alloc: Global) -> Result<Literal, Refusal>
        ensures { Parses (λ x. x) result self.old self.new (led same_shape comma valued_literal_at) }
    {
        self.sign(Sign::Comma)?;
        let literal = self.literal(alloc)?;
        Ok(literal)
    }

    // The literals after the first.
    fn further_literals(&mut self, alloc: Global, first: Literal) -> Result<Vec<Literal>, Refusal>
        ensures read { Parses (λ v. drop 1 v.items) result self.old self.new (further begins_literal valued_literal_at (most_literals - 1)) }
        ensures first { IfOk result (λ v. v.items ≡ first ∷ drop 1 v.items) }
    {
        let mut literals = Vec::new(alloc);
        literals.push(first)?;
        'literals: while self.sign_stands(Sign::Comma) {
            if literals.len() == MOST_LITERALS {
                return Err(self.too_many_literals());
            }
            let literal = self.next_literal(alloc)?;
            literals.push(literal)?;
        }
        Ok(literals)
    }

    /// At most sixteen literals with commas between, at least one.
    #[tactic(auto, unfolding(crate::specs::Valued::valued_body_at))]
    pub fn body(&mut self, alloc: Global) -> Result<LiteralList, Refusal>
        ensures { Parses (λ v. v) result self.old self.new valued_body_at }
    {
        let first = self.literal(alloc)?;
        let literals = self.further_literals(alloc, first)?;
        Ok(LiteralList::from_vec(literals))
    }

    /// `where` and a body, or nothing.
    #[tactic(auto, using(crate::proofs::Choice::where_some, crate::proofs::Choice::where_none))]
    pub fn where_part(&mut self, alloc: Global) -> Result<LiteralList, Refusal>
        ensures { Parses (λ v. v) result self.old self.new valued_where_at }
    {
        if self.word_stands(Reserved::Where) {
            self.word(Reserved::Where)?;
            let body = self.body(alloc)?;
            return Ok(body);
        }
        Ok(LiteralList::new(alloc))
    }
}
