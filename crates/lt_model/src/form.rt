//! Statements as they are kept: whole, or by a form that many share and constants of their own.
ghost use Rattle.std.specs.Prelude.{◌≡◌, IsTrue};
ghost use Rattle.std.specs.Arc.{arc_value};
ghost use Rattle.lt_model.specs.Forms.{filled, numbered, IsFormOf};
ghost use Rattle.lt_model.specs.Kept.{statement_of};
ghost use Rattle.lt_model.specs.Within.{IsStatementWithin};

use crate::syntax::Statement;
use lt_face::key::Key;
use smallvec::SmallVec;
use std::marker::Model;
use std::sync::Arc;

/// Most statements have no more constants.
pub const FEW_CELLS: usize = 4;

/// The constants of a statement in text order, as cells.
pub type CellList = SmallVec<Key, FEW_CELLS>;

/// What statements share that differ in constants alone: one of their texts, and the statement that has the number k, from 1, as
/// the cell of its k-th constant.
#[derive(Drop)]
pub struct Form {
    text: Vec<u8>,
    statement: Statement,
    place: usize,
}

impl Model for Form {
    ghost use Rattle.std.specs.Prelude.{ℕ, List};
    ghost use Rattle.lt_model.specs.declared.syntax.Statement.{Statement};
    ghost use Rattle.lt_model.specs.Forms.{IsFormOf};

    ghost Value = { List ℕ × Statement };

    ghost view = { λ f. (f.text.items, f.statement) };

    ghost invariant = { λ f. IsFormOf f.text.items f.statement };
}

impl Form {
    /// The form of this text. Where it is kept is a hint of which no clause speaks.
    pub fn new(text: Vec<u8>, statement: Statement, place: usize) -> Form
        requires { IsFormOf text.items statement }
        ensures text { result.0 ≡ text.items }
        ensures statement { result.1 ≡ statement }
    {
        Form {
            text,
            statement,
            place,
        }
    }

    /// The text that it was made of.
    pub fn text(&self) -> &[u8]
        ensures { result.now ≡ self.now.0 }
    {
        self.text.as_slice()
    }

    /// The statement with numbers.
    pub fn statement(&self) -> &Statement
        ensures same { result.now ≡ self.now.1 }
        ensures within { IsStatementWithin self.now.1 }
    {
        &self.statement
    }

    /// Where it is likely kept.
    pub fn place(&self) -> usize {
        self.place
    }

    /// Whether both are forms of one text. Then they are one form.
    pub fn is_same(&self, other: &Form) -> bool
        ensures { IsTrue result → other.now.1 ≡ self.now.1 }
    {
        self.text.as_slice() == other.text.as_slice()
    }
}

/// A statement as it is kept.
#[derive(Drop)]
pub enum Kept {
    Whole(Statement),
    Filled(Arc<Form>, CellList),
}

/// A statement.
#[derive(Drop)]
pub struct Wording {
    kept: Kept,
}

impl Model for Wording {
    ghost use Rattle.lt_model.specs.declared.syntax.Statement.{Statement};
    ghost use Rattle.lt_model.specs.Kept.{statement_of};

    ghost Value = { Statement };

    ghost view = { λ w. statement_of w.kept };
}

impl Wording {
    /// The statement, whole.
    pub fn whole(statement: Statement) -> Wording
        ensures { result ≡ statement }
    {
        Wording {
            kept: Kept::Whole(statement),
        }
    }

    /// The statement of this form with these constants.
    pub fn of_form(form: Arc<Form>, cells: CellList) -> Wording
        ensures { result ≡ filled (arc_value form).1 cells.items }
    {
        Wording {
            kept: Kept::Filled(form, cells),
        }
    }

    /// The statement with whatever constants, for who looks at no cell.
    pub fn but_for_cells(&self) -> &Statement
        ensures { numbered result.now ≡ numbered self.now }
    {
        match &self.kept {
            Kept::Whole(statement) => statement,
            Kept::Filled(form, _) => form.statement(),
        }
    }

    /// How it is kept.
    pub fn kept(&self) -> &Kept
        ensures { statement_of result.now ≡ self.now }
    {
        &self.kept
    }
}
