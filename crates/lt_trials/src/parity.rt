//! Leaves whose marks tell how many stand before them.
ghost use Rattle.std.specs.Prelude.{◌≡◌, ◌∷◌, [], ⊤, ◌%◌, ◌==◌, Some, IfOk, length};
ghost use Rattle.lt_model.specs.Marks.{AreMarks};
ghost use Rattle.lt_model.proofs.Composition.{AreMarks-and_then};

use lt_circuit::LeafWork;
use lt_delta::{Mark, MarkList, Marks};
use lt_face::{Items, Key, Moves, NoMemory, Row};
use std::alloc::Global;

/// Each leaf writes one mark on a row of its own: it puts the row in where an even number of marks stands before it, and else
/// takes it out.
#[derive(Drop)]
pub struct Parity {
    pub alloc: Global,
}

/// The marks with one mark on this row.
fn one_mark(alloc: Global, row: Key, plus: bool) -> Result<Marks, NoMemory>
    ensures { IfOk result (λ marks. marks ≡ record { relation = 0; row = row ∷ []; plus = plus } ∷ []) }
{
    let mut list: MarkList = Items::new(alloc);
    let row = Row::from_cells(alloc, &[row]);
    list.push(Mark {
        relation: 0,
        row,
        plus,
    })?;
    let marks = Marks::from_list(list)?;
    Ok(marks)
}

impl LeafWork for Parity {
    type Tally = Marks;

    ghost has = { λ w leaf. ⊤ };

    ghost fits = { λ w c. AreMarks c };

    ghost does = { λ w leaf c. record { relation = 0; row = leaf ∷ []; plus = length c % 2 == 0 } ∷ [] };

    ghost stands_for = { λ w tally leaf c. tally ≡ record { relation = 0; row = leaf ∷ []; plus = length c % 2 == 0 } ∷ [] };

    ghost bound = { λ w prior leaf c. Some 0 };

    ghost fits_marks = { λ w a fit. fit };

    ghost empty_fits = { λ w. tt };

    ghost then_fits = { λ w a b fit_a fit_b. AreMarks-and_then a b fit_a };

    ghost does_fits = { λ w leaf c there fit. (tt, tt) };

    fn work<L>(
        &self,
        leaf: u32,
        _prior: Option<&Marks>,
        correction: &Marks,
        _moves: &mut Moves<L>,
    ) -> Result<Marks, NoMemory> {
        let plus = correction.len() % 2 == 0;
        let marks = one_mark(self.alloc, leaf as Key, plus)?;
        Ok(marks)
    }

    fn effect<'a>(&self, tally: &'a Marks) -> &'a Marks {
        tally
    }
}
