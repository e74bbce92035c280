//! The indexes that a program needs.
ghost use Rattle.std.specs.Prelude.{◌≡◌, ◌⊎◌, ℕ, List, true, IfOk, IsTrue};
ghost use Rattle.std.specs.List.{AllByRecursion};
ghost use Rattle.lt_query.specs.declared.plans.Guide.{Guide as GuideType};
ghost use Rattle.lt_model.specs.Fits.{Fits};
ghost use Rattle.lt_base.specs.Tables.{state_of, has_index};
ghost use Rattle.lt_query.specs.Needs.{IsNeeded};
ghost use Rattle.lt_program.specs.Tally.{HasIndexes};

use lt_base::Database;
use lt_face::memory::NoMemory;
use lt_query::{Guide, Planned, Route};
use std::thread::Threads;

/// Whether the database has the indexes of these guides, and each was needed of late.
fn are_in_use(base: &Database, guides: &[Guide]) -> bool
    ensures { IsTrue result → AllByRecursion (λ (guide : GuideType). has_index base.now guide.relation guide.columns ≡ true) guides.now }
{
    for guide in guides {
        if !base.is_in_use(guide.relation, &guide.columns) {
            return false;
        }
    }
    true
}

/// Whether the database has the indexes that the program needs, and each was needed of late.
pub fn has_indexes(base: &Database, prog: &Planned) -> bool
    requires { Fits (state_of base.now) prog.now }
    ensures { IsTrue result → HasIndexes base.now prog.now }
{
    base.look_over();
    for route in prog.routes() {
        let route: &Route = route;
        if !are_in_use(base, route.guides.as_slice()) {
            return false;
        }
    }
    true
}

/// The same database, with the indexes that the program needs beside those that it has.
pub fn indexed<R: Threads + Sync>(
    rt: &R,
    base: &Database,
    prog: &Planned,
) -> Result<Database, NoMemory>
    requires fits { Fits (state_of base.now) prog.now }
    ensures state { IfOk result (λ db. state_of db ≡ state_of base.now) }
    ensures indexes { IfOk result (λ db. HasIndexes db prog.now) }
    ensures kept { IfOk result (λ db. (relation : ℕ) (columns : List ℕ) → has_index base.now relation columns ≡ true → has_index db relation columns ≡ true) }
    ensures no_others { IfOk result (λ db. (relation : ℕ) (columns : List ℕ) → has_index db relation columns ≡ true →
        (has_index base.now relation columns ≡ true) ⊎ IsNeeded prog.now (record { relation = relation; columns = columns })) }
{
    base.look_over();
    let names = prog.needs()?;
    let mut db = base.share()?;
    for name in names.as_slice() {
        let more = db.with_index(rt, name.relation, &name.columns)?;
        db = more;
    }
    Ok(db)
}
