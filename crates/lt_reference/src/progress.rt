//! How far a run has come.
ghost use Rattle.std.specs.Prelude.{IfOk, MatchBool};
ghost use Rattle.lt_model.specs.Laws.{Rises};
ghost use Rattle.lt_reference.specs.Run.{Follows, Stops};
ghost use Rattle.lt_reference.specs.Walk.{bare};

use crate::laying::lay;
use lt_delta::Marks;
use lt_face::items::RowList;
use lt_face::memory::NoMemory;
use lt_model::reply::{Printed, Prints};
use lt_program::Effect;

/// The marks and the prints of the statements so far, and the relations with these marks laid on them.
#[derive(Drop)]
pub(crate) struct Progress {
    pub relations: Vec<RowList>,
    pub marks: Marks,
    pub prints: Prints,
}

impl Progress {
    /// Takes in the effect of statement `number`. False where that is a requirement that isn't met, or a clash.
    pub(crate) fn accept(&mut self, number: u32, effect: Effect) -> Result<bool, NoMemory>
        requires { Rises (bare self.old.relations.items) }
        ensures { IfOk result (λ goes_on. MatchBool goes_on (Follows number effect self.old self.new) (Stops number effect self.old)) }
    {
        match effect {
            Effect::Writes(marks) => {
                lay(&mut self.relations, &marks)?;
                self.marks = Marks::and_then(&self.marks, &marks)?;
                Ok(true)
            }
            Effect::Requires(met) => Ok(met),
            Effect::Clashes => Ok(false),
            Effect::Prints(kinds, rows) => {
                self.prints.push(Printed {
                    statement: number,
                    kinds,
                    rows,
                })?;
                Ok(true)
            }
        }
    }
}
