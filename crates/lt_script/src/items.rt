//! The items of a script: declarations, batches and questions.
ghost use Rattle.std.specs.Prelude.{◌≡◌, ◌≤◌, ◌∷◌, ◌+◌, ◌-◌, ◌++◌, IfOk, IfErr, drop, length, false};
ghost use Rattle.lt_face.specs.Limits.{most_columns, most_programs};
ghost use Rattle.lt_reading.specs.Reading.{next_is, led, listed, trail, past_comma, given, many, at_once, maybe};
ghost use Rattle.lt_model.specs.Grammar.{comma, arrow};
ghost use Rattle.lt_grammar.specs.Tokens.{same_shape, at_word};
ghost use Rattle.lt_grammar.specs.Productions.{kind_at, starts_kind as begins_kind, is_program, columns_at, relation_at, is_at};
ghost use Rattle.lt_script.specs.Ahead.{shapes};
ghost use Rattle.lt_script.specs.Valued.{valued_number_at, valued_program_at, valued_batch_at, batch_of, relation_of, valued_show_at, show_of, valued_item_at, kinds_of as kinds_in};
ghost use Rattle.lt_script.specs.Parsed.{Parses, Refuses, further};

use crate::cursor::Cursor;
use crate::forms::Forms;
use crate::refusal::{Cause, Refusal};
use crate::reserved::{Reserved, Sign};
use lt_face::limits::{MOST_COLUMNS, MOST_PROGRAMS};
use lt_model::kind::{Kind, KindList};
use lt_model::syntax::{Item, Program, ProgramList, StatementList};
use std::alloc::Global;

// The kinds of the key columns, and behind them those of the value columns.
fn join_kinds(alloc: Global, keys: Vec<Kind>, values: Vec<Kind>) -> Result<KindList, Refusal>
    requires { length keys.items + length values.items ≤ most_columns }
    ensures gives { IfOk result (λ kinds. kinds ≡ keys.items ++ values.items) }
    ensures refused { IfErr result (λ refusal. refusal ≡ Refusal.NoMemory) }
{
    let mut kinds = keys;
    kinds.extend_from_slice(&values)?;
    Ok(KindList::from_kinds(alloc, kinds.as_slice()))
}

impl<'a> Cursor<'a> {
    // Whether a kind may begin with the next token.
    fn starts_kind(&self) -> bool
        ensures { result ≡ next_is begins_kind (shapes self.now) }
    {
        match self.peek() {
            Some(first) => first.is_word(Reserved::Int) || first.is_word(Reserved::Sym),
            None => false,
        }
    }

    // Why no kind past the last is read, behind a comma or an arrow.
    fn too_many_kinds(&mut self) -> Refusal
        ensures { Refuses result self.old self.new (past_comma begins_kind) }
    {
        if self.peek().is_some() {
            self.advance();
            if self.starts_kind() {
                return Refusal::Fault(Cause::TooMany);
            }
        }
        Refusal::Fault(Cause::NotAllowed)
    }

    fn next_kind(&mut self) -> Result<Kind, Refusal>
        ensures { Parses (λ k. k) result self.old self.new (led same_shape comma kind_at) }
    {
        self.sign(Sign::Comma)?;
        let kind = self.kind()?;
        Ok(kind)
    }

    // This kind, and those behind it, at most so many in all.
    fn further_kinds(
        &mut self,
        alloc: Global,
        first: Kind,
        most: usize,
    ) -> Result<Vec<Kind>, Refusal>
        requires { 1 ≤ most }
        ensures read { Parses (λ v. drop 1 v.items) result self.old self.new (further begins_kind kind_at (most - 1)) }
        ensures first { IfOk result (λ v. v.items ≡ first ∷ drop 1 v.items) }
        ensures few { IfOk result (λ v. length v.items ≤ most) }
    {
        let mut kinds = Vec::new(alloc);
        kinds.push(first)?;
        'kinds: while self.sign_stands(Sign::Comma) {
            if kinds.len() == most {
                return Err(self.too_many_kinds());
            }
            let kind = self.next_kind()?;
            kinds.push(kind)?;
        }
        Ok(kinds)
    }

    // The kinds behind the arrow, which stands next: one or more, at most so many.
    fn kinds_behind(&mut self, alloc: Global, most: usize) -> Result<Vec<Kind>, Refusal>
        requires { 1 ≤ most }
        ensures read { Parses (λ v. kinds_in v.items) result self.old self.new (led same_shape arrow (listed same_shape comma begins_kind kind_at (most - 1))) }
        ensures some { IfOk result (λ v. 1 ≤ length v.items) }
        ensures few { IfOk result (λ v. length v.items ≤ most) }
    {
        self.sign(Sign::Arrow)?;
        let first = self.kind()?;
        let kinds = self.further_kinds(alloc, first, most)?;
        Ok(kinds)
    }

    // The kinds of the value columns behind an arrow, or none. So many key columns stand before it.
    #[tactic(auto, using(crate::proofs::Choice::trail_none, crate::proofs::Choice::trail_full, crate::proofs::Choice::trail_some))]
    fn value_kinds(&mut self, alloc: Global, keys: usize) -> Result<Vec<Kind>, Refusal>
        requires some { 1 ≤ keys }
        requires few { keys ≤ most_columns }
        ensures read { Parses (λ v. v.items) result self.old self.new (trail same_shape arrow comma begins_kind kind_at (most_columns - keys)) }
        ensures left { IfOk result (λ v. length v.items ≤ most_columns - keys) }
    {
        if !self.sign_stands(Sign::Arrow) {
            return Ok(Vec::new(alloc));
        }
        if keys == MOST_COLUMNS {
            return Err(self.too_many_kinds());
        }
        let kinds = self.kinds_behind(alloc, MOST_COLUMNS - keys)?;
        Ok(kinds)
    }

    // The kinds of the key columns, and of the value columns.
    #[tactic(auto, unfolding(lt_grammar::specs::Productions::columns_at))]
    fn columns(&mut self, alloc: Global) -> Result<(Vec<Kind>, Vec<Kind>), Refusal>
        ensures read { Parses (λ c. (kinds_in c.0.items, c.1.items)) result self.old self.new columns_at }
        ensures some { IfOk result (λ c. 1 ≤ length c.0.items) }
        ensures few { IfOk result (λ c. length c.0.items + length c.1.items ≤ most_columns) }
    {
        let first = self.kind()?;
        let keys = self.further_kinds(alloc, first, MOST_COLUMNS)?;
        let values = self.value_kinds(alloc, keys.len())?;
        Ok((keys, values))
    }

    #[tactic(auto, unfolding(crate::specs::Valued::valued_program_at))]
    fn program(&mut self, alloc: Global, forms: &mut Forms) -> Result<Program, Refusal>
        ensures { Parses (λ x. x) result self.old self.new valued_program_at }
    {
        self.word(Reserved::Program)?;
        let mut statements = Vec::new(alloc);
        let name = self.title(alloc, forms, &mut statements)?;
        self.statements(alloc, forms, &mut statements)?;
        self.word(Reserved::End)?;
        self.sign(Sign::Semicolon)?;
        Ok(Program {
            name: name.to_name(alloc),
            statements: StatementList::from_vec(statements),
        })
    }

    // The programs of a batch, at most two hundred and fifty-six.
    fn programs(&mut self, alloc: Global, forms: &mut Forms) -> Result<Vec<Program>, Refusal>
        ensures { Parses (λ v. v.items) result self.old self.new (many is_program valued_program_at at_once most_programs) }
    {
        let mut programs = Vec::new(alloc);
        'programs: while self.word_stands(Reserved::Program) {
            if programs.len() == MOST_PROGRAMS {
                return Err(Refusal::Fault(Cause::TooMany));
            }
            let program = self.program(alloc, forms)?;
            programs.push(program)?;
        }
        Ok(programs)
    }

    #[tactic(auto, unfolding(crate::specs::Valued::valued_batch_at))]
    fn batch(&mut self, alloc: Global, forms: &mut Forms) -> Result<Item, Refusal>
        ensures { Parses (λ x. x) result self.old self.new (given batch_of valued_batch_at) }
    {
        self.word(Reserved::Batch)?;
        let programs = self.programs(alloc, forms)?;
        self.word(Reserved::Commit)?;
        self.sign(Sign::Semicolon)?;
        Ok(Item::Batch {
            programs: ProgramList::from_vec(programs),
        })
    }

    #[tactic(auto, unfolding(lt_grammar::specs::Productions::relation_at))]
    fn relation(&mut self, alloc: Global) -> Result<Item, Refusal>
        ensures { Parses (λ x. x) result self.old self.new (given relation_of relation_at) }
    {
        self.word(Reserved::Relation)?;
        let name = self.name()?;
        self.sign(Sign::Open)?;
        let columns = self.columns(alloc)?;
        self.sign(Sign::Close)?;
        self.sign(Sign::Semicolon)?;
        let (keys, values) = columns;
        let key_columns = keys.len() as u32;
        let kinds = join_kinds(alloc, keys, values)?;
        Ok(Item::Relation {
            name: name.to_name(alloc),
            kinds,
            keys: key_columns,
        })
    }

    // `at` and a number, or nothing.
    #[tactic(auto, using(crate::proofs::Choice::version_some, crate::proofs::Choice::version_none))]
    fn version(&mut self) -> Result<Option<u64>, Refusal>
        ensures { Parses (λ x. x) result self.old self.new (maybe is_at (led same_shape at_word (valued_number_at false))) }
    {
        if self.word_stands(Reserved::At) {
            self.word(Reserved::At)?;
            let number = self.number(false)?;
            return Ok(Some(number));
        }
        Ok(None)
    }

    #[tactic(auto, unfolding(crate::specs::Valued::valued_show_at))]
    fn show(&mut self, alloc: Global) -> Result<Item, Refusal>
        ensures { Parses (λ x. x) result self.old self.new (given show_of valued_show_at) }
    {
        self.word(Reserved::Show)?;
        let name = self.name()?;
        let at = self.version()?;
        self.sign(Sign::Semicolon)?;
        Ok(Item::Show {
            name: name.to_name(alloc),
            at,
        })
    }

    /// Reads the next item. At a fault the cursor stands at the token that isn't allowed, or at the end where one is missing.
    #[tactic(auto, using(crate::proofs::Choice::item_relation, crate::proofs::Choice::item_batch, crate::proofs::Choice::item_show))]
    pub fn item(&mut self, alloc: Global, forms: &mut Forms) -> Result<Item, Refusal>
        ensures { Parses (λ x. x) result self.old self.new valued_item_at }
    {
        if self.word_stands(Reserved::Relation) {
            return self.relation(alloc);
        }
        if self.word_stands(Reserved::Batch) {
            return self.batch(alloc, forms);
        }
        self.show(alloc)
    }
}
