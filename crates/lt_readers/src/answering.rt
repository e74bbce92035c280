//! The reply of a program.
ghost use Rattle.std.specs.Prelude.{◌≡◌, IfOk};
ghost use Rattle.std.specs.Arc.{arc_value};
ghost use Rattle.lt_model.specs.Fits.{Fits};
ghost use Rattle.lt_model.specs.Run.{run as run_of};
ghost use Rattle.lt_base.specs.Tables.{state_of};
ghost use Rattle.lt_program.specs.Run.{AreReplied};

use lt_base::Database;
use lt_face::memory::NoMemory;
use lt_face::moves::Moves;
use lt_program::{Reply, indexed, run_alone};
use lt_query::Planned;
use std::sync::Arc;
use std::thread::Threads;

// What tells these moves from others.
struct Asked;

/// The reply of a program on a database, and a share of that with the indexes that the program needs.
pub fn answered<R: Threads + Sync>(
    rt: &R,
    db: &Database,
    prog: &Arc<Planned>,
) -> Result<(Database, Reply), NoMemory>
    requires fits { Fits (state_of db.now) (arc_value prog.now) }
    ensures state { IfOk result (λ out. state_of out.0 ≡ state_of db.now) }
    ensures reply { IfOk result (λ out. out.1 ≡ (run_of (arc_value prog.now) (state_of db.now)).0) }
    ensures printed { IfOk result (λ out. AreReplied out.1) }
{
    let db = indexed(rt, db, prog)?;
    let mut moves = Moves::<Asked>::new();
    let ran = run_alone(prog, &db, &mut moves)?;
    Ok((db, ran.reply))
}
