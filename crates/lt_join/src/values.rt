//! What the variables of a body are known to be.
ghost use Rattle.std.specs.Prelude.{◌≡◌, ◌<◌, ◌≤◌, None, length};
ghost use Rattle.lt_face.specs.Limits.{most_columns, most_variables};
ghost use Rattle.lt_model.specs.Answers.{term_value, cell_of, cells_of};
ghost use Rattle.lt_join.specs.Values.{values_in, assigned, with_value};

use lt_face::key::Key;
use lt_face::limits::MOST_VARIABLES;
use lt_face::row::Row;
use lt_model::normal::Term;
use std::alloc::Global;

/// For each variable its value, if it has one.
#[derive(Clone, Copy)]
pub struct Values {
    pub cells: [Option<Key>; MOST_VARIABLES],
}

impl Values {
    /// No variable has a value.
    pub fn none() -> Values
        ensures { values_in result.cells ≡ (λ _. None) }
    {
        Values {
            cells: [None; MOST_VARIABLES],
        }
    }

    /// The value of a variable.
    pub fn get(&self, v: u32) -> Option<Key>
        ensures { result ≡ values_in self.now.cells v }
    {
        *self.cells.get(v as usize)?
    }

    /// Gives a variable this value.
    pub fn set(&mut self, v: u32, cell: Key)
        requires { v < most_variables }
        ensures { values_in self.new.cells ≡ with_value (values_in self.old.cells) v cell }
    {
        self.cells[v as usize] = Some(cell);
    }

    /// What a term stands for, if that is known.
    pub fn value(&self, term: Term) -> Option<Key>
        ensures { result ≡ term_value (values_in self.now.cells) term }
    {
        match term {
            Term::Var(v) => self.get(v),
            Term::Cell(cell) => Some(cell),
        }
    }

    /// A term's cell, 0 where its variable has no value.
    pub fn cell(&self, term: Term) -> Key
        ensures { result ≡ cell_of (assigned (values_in self.now.cells)) term }
    {
        self.value(term).unwrap_or(0)
    }

    /// The row of the terms' cells.
    pub fn row(&self, alloc: Global, terms: &[Term]) -> Row
        requires { length terms.now ≤ most_columns }
        ensures { result ≡ cells_of (assigned (values_in self.now.cells)) terms.now }
    {
        let mut row = Row::from_cells(alloc, &[]);
        for term in terms {
            row.push(self.cell(*term));
        }
        row
    }
}
