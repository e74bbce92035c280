//! Which keys of a body's first variable changed rows touch.
ghost use Rattle.std.specs.Prelude.{IfOk};
ghost use Rattle.lt_face.specs.State.{State};
ghost use Rattle.lt_query.specs.Lists.{IsRising};
ghost use Rattle.lt_sense.specs.Done.{AreAskable};
ghost use Rattle.lt_join.specs.Mended.{HaveTouched};
ghost use Rattle.lt_join.specs.MendedKeys.{AreTouched, NameCovered, HaveSame};
ghost use Rattle.lt_join.specs.Sliced.{united};

use crate::sliced::Slices;
use lt_face::items::{Changes, Items};
use lt_face::key::Key;
use lt_face::memory::NoMemory;
use std::alloc::Global;

/// The keys in ascending order, each once.
fn rising(mut keys: Vec<Key>) -> Result<Items<Key>, NoMemory>
    ensures ascending { IfOk result IsRising }
    ensures same { IfOk result (HaveSame keys.items) }
{
    keys.sort()?;
    keys.dedup();
    Ok(Items::from_vec(keys))
}

/// The keys that changed rows touch, ascending: those whose slice covers a changed row, and the first cells of changed rows that lie
/// in root gaps. No moves are made.
pub fn touched_keys(
    alloc: Global,
    found: &Slices,
    changes: &Changes,
) -> Result<Items<Key>, NoMemory>
    requires { AreAskable (united found.now.root found.now.slices) changes.now }
    ensures touched { IfOk result (AreTouched found.now.root found.now.slices changes.now) }
    ensures enough { IfOk result (λ keys. (s t : State) → NameCovered changes.now found.now.root found.now.slices s t → HaveTouched keys found.now.root found.now.slices s t) }
{
    let mut keys = Vec::new(alloc);
    for change in changes.as_slice() {
        found.add_touched(&mut keys, change.0, &change.1)?;
    }
    let keys = rising(keys)?;
    Ok(keys)
}
