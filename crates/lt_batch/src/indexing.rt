//! The indexes that a batch needs.
ghost use Rattle.std.specs.Prelude.{◌≡◌, map, IfOk};
ghost use Rattle.std.specs.Arc.{arc_value};
ghost use Rattle.std.specs.List.{AllByRecursion};
ghost use Rattle.lt_model.specs.Fits.{Fits};
ghost use Rattle.lt_base.specs.Tables.{state_of};
ghost use Rattle.lt_program.specs.Tally.{HasIndexes};

use lt_base::Database;
use lt_face::memory::NoMemory;
use lt_program::indexed;
use lt_query::Planned;
use std::sync::Arc;
use std::thread::Threads;

/// The database with the indexes that the programs need.
pub(crate) fn all_indexed<R: Threads + Sync>(
    rt: &R,
    db: &Database,
    progs: &[Arc<Planned>],
) -> Result<Database, NoMemory>
    requires fits { AllByRecursion (Fits (state_of db.now)) (map arc_value progs.now) }
    ensures state { IfOk result (λ with. state_of with ≡ state_of db.now) }
    ensures indexes { IfOk result (λ with. AllByRecursion (HasIndexes with) (map arc_value progs.now)) }
{
    let mut with = db.share()?;
    for prog in progs {
        with = indexed(rt, &with, prog)?;
    }
    Ok(with)
}
