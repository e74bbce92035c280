//! Leaves whose marks meet, and whose marks depend on what ran before them.
ghost use Rattle.std.specs.Prelude.{◌≡◌, ◌∷◌, [], ⊤, ◌&&◌, Some, IfOk, length, max, nat_lt};
ghost use Rattle.lt_model.specs.Marks.{AreMarks};
ghost use Rattle.lt_model.proofs.Composition.{AreMarks-and_then};

use lt_circuit::LeafWork;
use lt_delta::{Mark, MarkList, Marks};
use lt_face::items::Items;
use lt_face::key::Key;
use lt_face::{Moves, NoMemory, Row};
use std::alloc::Global;
use std::sync::atomic::{AtomicU32, Ordering};

/// Leaf 0 deletes the row (1). Each other leaf i inserts the row (i) where fewer than two marks stand before it, and else
/// deletes it. Of their works the one with the number `refused`, from 0 on, is refused.
#[derive(Drop)]
pub struct Sample {
    alloc: Global,
    refused: u32,
    begun: AtomicU32,
}

impl Sample {
    /// None is refused, of fewer than `u32::MAX`.
    pub fn new(alloc: Global) -> Sample {
        Sample::refusing(alloc, u32::MAX)
    }

    /// The work with this number is refused.
    pub fn refusing(alloc: Global, refused: u32) -> Sample {
        Sample {
            alloc,
            refused,
            begun: AtomicU32::new(0),
        }
    }
}

/// What four leaves write one after another. What two or three write are the first marks.
pub(crate) const SERIAL: [(Key, bool); 3] = [(1, true), (2, true), (3, false)];

/// The marks with one mark on this row.
fn one_mark(alloc: Global, row: Key, plus: bool) -> Result<Marks, NoMemory>
    ensures { IfOk result (λ marks. marks ≡ record { relation = 0; row = row ∷ []; plus = plus } ∷ []) }
{
    let mut list: MarkList = Items::new(alloc);
    let row = Row::from_cells(alloc, &[row]);
    list.push(Mark {
        relation: 0,
        row,
        plus,
    })?;
    let marks = Marks::from_list(list)?;
    Ok(marks)
}

impl LeafWork for Sample {
    type Tally = Marks;

    ghost has = { λ w leaf. ⊤ };

    ghost fits = { λ w c. AreMarks c };

    ghost does = { λ w leaf c. record { relation = 0; row = max leaf 1 ∷ []; plus = nat_lt 0 leaf && nat_lt (length c) 2 } ∷ [] };

    ghost stands_for = { λ w tally leaf c. tally ≡ record { relation = 0; row = max leaf 1 ∷ []; plus = nat_lt 0 leaf && nat_lt (length c) 2 } ∷ [] };

    ghost bound = { λ w prior leaf c. Some 0 };

    ghost fits_marks = { λ w a fit. fit };

    ghost empty_fits = { λ w. tt };

    ghost then_fits = { λ w a b fit_a fit_b. AreMarks-and_then a b fit_a };

    ghost does_fits = { λ w leaf c there fit. (tt, tt) };

    fn work<L>(
        &self,
        leaf: u32,
        _prior: Option<&Marks>,
        correction: &Marks,
        _moves: &mut Moves<L>,
    ) -> Result<Marks, NoMemory> {
        if self.begun.fetch_add(1, Ordering::SeqCst) == self.refused {
            return Err(NoMemory);
        }
        let plus = 0 < leaf && correction.len() < 2;
        let marks = one_mark(self.alloc, leaf.max(1) as Key, plus)?;
        Ok(marks)
    }

    fn effect<'a>(&self, tally: &'a Marks) -> &'a Marks {
        tally
    }
}
