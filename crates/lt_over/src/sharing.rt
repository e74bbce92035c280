//! Second owners.
ghost use Rattle.std.specs.Prelude.{◌≡◌, ◌++◌, map, OnOk};
ghost use Rattle.std.specs.Arc.{arc_value};

use lt_face::memory::NoMemory;
use std::sync::Arc;

/// Second owners of `more` at the end.
pub fn append<T: Drop>(list: &mut Vec<Arc<T>>, more: &[Arc<T>]) -> Result<(), NoMemory>
    ensures { OnOk result (map arc_value list.new.items ≡ map arc_value list.old.items ++ map arc_value more.now) }
{
    for one in more {
        let one = one.clone()?;
        list.push(one)?;
    }
    Ok(())
}
