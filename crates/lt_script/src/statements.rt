//! Statements up to the semicolon, where their variables are counted.
ghost use Rattle.std.specs.Prelude.{◌≡◌, ◌≤◌, ◌<◌, ◌+◌, ◌^◌, ◌++◌, List, [], length, IfOk, IfErr, OnOk};
ghost use Rattle.lt_face.specs.Limits.{most_statements};
ghost use Rattle.lt_reading.specs.Reading.{next_is, given, both, close as closing};
ghost use Rattle.lt_model.specs.Grammar.{semicolon};
ghost use Rattle.lt_grammar.specs.Tokens.{same_shape};
ghost use Rattle.lt_grammar.specs.Productions.{starts_statement as begins_statement};
ghost use Rattle.lt_script.specs.Ahead.{shapes};
ghost use Rattle.lt_script.specs.Names.{few_variables};
ghost use Rattle.lt_script.specs.Valued.{valued_head_at, valued_where_at, valued_insert_at, insert_of, valued_delete_at, delete_of, valued_replace_at, replace_of, valued_require_at, require_of, valued_print_at, print_of, valued_form_at, valued_statement_at};
ghost use Rattle.lt_script.specs.Parsed.{Parses, Fails};
ghost use Rattle.lt_model.specs.declared.syntax.Statement.{Statement as ScriptStatement};
ghost use Rattle.lt_grammar.specs.Productions.{name_at};
ghost use Rattle.lt_script.specs.Forms.{GoesPast, IsTitled, more_statements};
ghost use Rattle.lt_script.specs.declared.label.Label.{Label as LabelType};
ghost use Rattle.lt_script.specs.declared.refusal.Refusal.TheVariants as refusals;

use crate::cursor::Cursor;
use crate::forms::Forms;
use crate::label::Label;
use crate::lexer::Lexer;
use crate::names::has_few_names;
use crate::one_token::not_allowed;
use crate::refusal::{Cause, Refusal};
use crate::reserved::{Reserved, Sign};
use crate::token::{Lexeme, Token};
use lt_face::limits::MOST_STATEMENTS;
use lt_face::memory::NoMemory;
use lt_model::form::Wording;
use lt_model::syntax::{Head, LiteralList, Statement};
use std::alloc::Global;

// Whether a word stands first with which a statement may begin.
fn may_begin(bytes: &[u8]) -> bool {
    match bytes.first() {
        Some(byte) => matches!(*byte, b'd' | b'i' | b'p' | b'r'),
        None => false,
    }
}

// Goes past the statements that stand next whose forms are known, while there is room for more: to behind the last of them.
fn past_known<'a>(
    alloc: Global,
    forms: &mut Forms,
    from: Lexer<'a>,
    statements: &mut Vec<Wording>,
) -> Result<Lexer<'a>, NoMemory>
    requires { from.line + length from.rest.now < 2 ^ 64 }
    ensures past { IfOk result (λ to. (read : List ScriptStatement) × (statements.new.items ≡ statements.old.items ++ read) × GoesPast from.entry.line from.entry.rest.now to.line to.rest.now read) }
    ensures few { OnOk result (length statements.old.items ≤ most_statements → length statements.new.items ≤ most_statements) }
    ensures fits { IfOk result (λ to. to.line + length to.rest.now < 2 ^ 64) }
{
    let mut end = from;
    'statements: while statements.len() < MOST_STATEMENTS {
        let mut next = end;
        next.skip_gap();
        if !may_begin(next.rest) {
            return Ok(end);
        }
        let Some(behind) = forms.take(alloc, next.rest, statements)? else {
            return Ok(end);
        };
        end = Lexer {
            rest: behind.rest,
            line: next.line + behind.lines,
        };
    }
    Ok(end)
}

impl<'a> Cursor<'a> {
    // A head and the `where` part behind it.
    fn rule(&mut self, alloc: Global) -> Result<(Head, LiteralList), Refusal>
        ensures { Parses (λ x. x) result self.old self.new (both valued_head_at valued_where_at) }
    {
        let head = self.head(alloc)?;
        let body = self.where_part(alloc)?;
        Ok((head, body))
    }

    #[tactic(auto, unfolding(crate::specs::Valued::valued_insert_at))]
    fn insert(&mut self, alloc: Global) -> Result<Statement, Refusal>
        ensures { Parses (λ x. x) result self.old self.new (given insert_of valued_insert_at) }
    {
        self.word(Reserved::Insert)?;
        let (head, body) = self.rule(alloc)?;
        Ok(Statement::Insert { head, body })
    }

    #[tactic(auto, unfolding(crate::specs::Valued::valued_delete_at))]
    fn delete(&mut self, alloc: Global) -> Result<Statement, Refusal>
        ensures { Parses (λ x. x) result self.old self.new (given delete_of valued_delete_at) }
    {
        self.word(Reserved::Delete)?;
        let (head, body) = self.rule(alloc)?;
        Ok(Statement::Delete { head, body })
    }

    #[tactic(auto, unfolding(crate::specs::Valued::valued_replace_at))]
    fn replace(&mut self, alloc: Global) -> Result<Statement, Refusal>
        ensures { Parses (λ x. x) result self.old self.new (given replace_of valued_replace_at) }
    {
        self.word(Reserved::Replace)?;
        let gone = self.head(alloc)?;
        self.word(Reserved::By)?;
        let (come, body) = self.rule(alloc)?;
        Ok(Statement::Replace { gone, come, body })
    }

    #[tactic(auto, unfolding(crate::specs::Valued::valued_require_at))]
    fn require(&mut self, alloc: Global) -> Result<Statement, Refusal>
        ensures { Parses (λ x. x) result self.old self.new (given require_of valued_require_at) }
    {
        self.word(Reserved::Require)?;
        let some = self.need()?;
        let body = self.body(alloc)?;
        Ok(Statement::Require { some, body })
    }

    #[tactic(auto, unfolding(crate::specs::Valued::valued_print_at))]
    fn print(&mut self, alloc: Global) -> Result<Statement, Refusal>
        ensures { Parses (λ x. x) result self.old self.new (given print_of valued_print_at) }
    {
        self.word(Reserved::Print)?;
        let terms = self.terms(alloc)?;
        self.word(Reserved::Where)?;
        let body = self.body(alloc)?;
        Ok(Statement::Print { terms, body })
    }

    // A statement up to its semicolon.
    #[tactic(auto, using(crate::proofs::Choice::form_insert, crate::proofs::Choice::form_delete, crate::proofs::Choice::form_replace, crate::proofs::Choice::form_require, crate::proofs::Choice::form_print))]
    fn form(&mut self, alloc: Global) -> Result<Statement, Refusal>
        ensures { Parses (λ x. x) result self.old self.new valued_form_at }
    {
        if self.word_stands(Reserved::Insert) {
            return self.insert(alloc);
        }
        if self.word_stands(Reserved::Delete) {
            return self.delete(alloc);
        }
        if self.word_stands(Reserved::Replace) {
            return self.replace(alloc);
        }
        if self.word_stands(Reserved::Require) {
            return self.require(alloc);
        }
        self.print(alloc)
    }

    // The semicolon that ends a statement. It has at most sixteen variables.
    #[tactic(auto, using(crate::proofs::Choice::close_refuses, crate::proofs::Choice::close_full, crate::proofs::Choice::close_ends))]
    fn close(&mut self, alloc: Global, statement: &Statement) -> Result<(), Refusal>
        ensures { Parses (λ x. statement.now) result self.old self.new (closing (λ t. same_shape t semicolon) (few_variables statement.now) statement.now) }
    {
        if !self.sign_stands(Sign::Semicolon) {
            return not_allowed();
        }
        if !has_few_names(alloc, statement)? {
            return Err(Refusal::Fault(Cause::TooFull));
        }
        self.sign(Sign::Semicolon)
    }

    // A statement and the semicolon that ends it.
    #[tactic(auto, unfolding(crate::specs::Valued::valued_statement_at))]
    fn statement(&mut self, alloc: Global) -> Result<Statement, Refusal>
        ensures { Parses (λ x. x) result self.old self.new valued_statement_at }
    {
        let statement = self.form(alloc)?;
        self.close(alloc, &statement)?;
        Ok(statement)
    }

    // Whether a statement may begin with the next token.
    fn starts_statement(&self) -> bool
        ensures { result ≡ next_is begins_statement (shapes self.now) }
    {
        match self.peek() {
            Some(first) => {
                first.is_word(Reserved::Insert)
                    || first.is_word(Reserved::Delete)
                    || first.is_word(Reserved::Replace)
                    || first.is_word(Reserved::Require)
                    || first.is_word(Reserved::Print)
            }
            None => false,
        }
    }

    // A statement whose form isn't known, and the semicolon that ends it.
    fn strange(&mut self, alloc: Global, forms: &mut Forms) -> Result<Wording, Refusal>
        ensures { Parses (λ x. x) result self.old self.new valued_statement_at }
    {
        if !forms.is_curious() {
            let statement = self.statement(alloc)?;
            return Ok(Wording::whole(statement));
        }
        let mut start = self.rest();
        start.skip_gap();
        let statement = self.statement(alloc)?;
        let end = self.rest();
        let len = start.rest.len().saturating_sub(end.rest.len());
        let (text, _) = start.rest.split_at(len);
        let wording = forms.learn(alloc, text, end.line.saturating_sub(start.line), statement)?;
        Ok(wording)
    }

    /// The name of a program, and the statements behind it whose forms are known.
    pub fn title(
        &mut self,
        alloc: Global,
        forms: &mut Forms,
        statements: &mut Vec<Wording>,
    ) -> Result<Label<'a>, Refusal>
        requires { statements.old.items ≡ [] }
        ensures titled { IfOk result (λ name. IsTitled (λ (l : LabelType). l.bytes.now) (shapes self.old) (shapes self.new) statements.new.items name) }
        ensures refused { IfErr result (λ refusal. Fails refusal (shapes self.new) (name_at (shapes self.old))) }
        ensures source { self.new.source ≡ self.old.source }
    {
        let Some(
            Token {
                lexeme: Lexeme::Word(word),
                ..
            },
        ) = self.peek()
        else {
            return not_allowed();
        };
        let end = past_known(alloc, forms, self.behind_next(), statements)?;
        self.go_to(end);
        Ok(word.label)
    }

    // Goes past the statements that stand next whose forms are known, while there is room for more. It refuses for want of memory alone.
    fn known(
        &mut self,
        alloc: Global,
        forms: &mut Forms,
        statements: &mut Vec<Wording>,
    ) -> Result<(), Refusal>
        requires { length statements.old.items ≤ most_statements }
        ensures known { OnOk result (more_statements statements.old.items (shapes self.old) ≡ more_statements statements.new.items (shapes self.new)) }
        ensures few { OnOk result (length statements.new.items ≤ most_statements) }
        ensures grown { OnOk result (length statements.old.items ≤ length statements.new.items) }
        ensures refused { IfErr result (λ refusal. refusal ≡ refusals.NoMemory) }
        ensures source { self.new.source ≡ self.old.source }
    {
        let count = statements.len();
        let end = past_known(alloc, forms, self.rest(), statements)?;
        if statements.len() > count {
            self.go_to(end);
        }
        Ok(())
    }

    /// The statements of a program, at most sixty-four.
    pub fn statements(
        &mut self,
        alloc: Global,
        forms: &mut Forms,
        statements: &mut Vec<Wording>,
    ) -> Result<(), Refusal>
        requires { length statements.old.items ≤ most_statements }
        ensures { Parses (λ _. statements.new.items) result self.old self.new (more_statements statements.old.items) }
    {
        'statements: while self.starts_statement() {
            if statements.len() == MOST_STATEMENTS {
                return Err(Refusal::Fault(Cause::TooMany));
            }
            let statement = self.strange(alloc, forms)?;
            statements.push(statement)?;
            self.known(alloc, forms, statements)?;
        }
        Ok(())
    }
}
