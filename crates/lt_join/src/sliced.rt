//! What a body answers key by key of its first variable, kept.
ghost use Rattle.std.specs.Prelude.{◌≡◌, IfOk, OnOk};
ghost use Rattle.lt_model.specs.Answers.{ascending as ascending_rows};
ghost use Rattle.lt_sense.specs.ByKey.{GainsJust};
ghost use Rattle.lt_sense.specs.Gathered.{IsAskable};
ghost use Rattle.lt_sense.specs.Sense.{covers};
ghost use Rattle.lt_join.specs.Mended.{Touches};
ghost use Rattle.lt_join.specs.Sliced.{AreRootGaps, sliced_rows, united};
ghost use Rattle.lt_join.specs.Slices.{AreKeyed, slices_of};

use crate::key_rows::{KeyRows, rows_by_key};
use lt_answers::ascending::ascending;
use lt_face::items::RowList;
use lt_face::key::Key;
use lt_face::memory::NoMemory;
use lt_face::row::Row;
use lt_sense::{GatheringByKey, SenseByKey};
use std::alloc::Global;
use std::marker::Model;

/// What was gathered key by key so far: what it was sensitive to, and the rows of the keys that have some.
#[derive(Drop)]
pub(crate) struct Gathered {
    pub(crate) sense: GatheringByKey,
    pub(crate) rows: Vec<KeyRows>,
}

/// A body's answers and what they were sensitive to, key by key of its first variable. Clauses see the gaps of that variable's level
/// (root gaps), and of each key that was found there its answers and what these were sensitive to (a slice).
#[derive(Drop)]
pub struct Slices {
    pub(crate) sense: SenseByKey,
    pub(crate) rows: Vec<KeyRows>,
}

impl Model for Slices {
    ghost use Rattle.lt_join.specs.Sliced.{AreRootGaps};
    ghost use Rattle.lt_join.specs.Slices.{AreKeyed, SlicesView, slices_of};

    ghost Value = { SlicesView };

    ghost view = { λ s. record { root = s.sense.root; slices = slices_of s.rows.items s.sense.slices } };

    ghost invariant = { λ s. AreKeyed s.sense.slices s.rows.items × AreRootGaps s.sense.root };
}

impl Slices {
    /// What was gathered, to be kept.
    pub(crate) fn of(found: Gathered) -> Result<Slices, NoMemory>
        requires keyed { AreKeyed found.sense.slices found.rows.items }
        requires root_gaps { AreRootGaps found.sense.root }
        ensures { IfOk result (λ slices. slices ≡ record { root = found.sense.root; slices = slices_of found.rows.items found.sense.slices }) }
    {
        let Gathered { sense, rows } = found;
        let sense = sense.seal()?;
        Ok(Slices { sense, rows })
    }

    /// Whether the root gaps or a slice cover the row, where it may be asked for.
    pub fn covers(&self, relation: u32, row: &Row) -> bool
        ensures { IsAskable (united self.now.root self.now.slices) relation row.now → result ≡ covers (united self.now.root self.now.slices) relation row.now }
    {
        self.sense.covers(relation, row)
    }

    /// Adds the keys that the row touches, where it may be asked for.
    pub(crate) fn add_touched(
        &self,
        keys: &mut Vec<Key>,
        relation: u32,
        row: &Row,
    ) -> Result<(), NoMemory>
        ensures { IsAskable (united self.now.root self.now.slices) relation row.now → OnOk result (GainsJust (λ k. Touches self.now.root self.now.slices relation row.now k) keys.old.items keys.new.items) }
    {
        self.sense.add_touched(keys, relation, row)
    }

    /// How much is kept of what it was sensitive to, for choices of time alone.
    pub fn weight(&self) -> usize {
        self.sense.weight()
    }

    /// The rows of the slices, key after key.
    fn all_rows(&self, alloc: Global) -> Result<Vec<Row>, NoMemory>
        ensures { IfOk result (λ rows. rows.items ≡ sliced_rows self.now.slices) }
    {
        rows_by_key(alloc, &self.rows)
    }
}

/// The rows of the slices in ascending order, each once.
pub fn rows_of_slices(alloc: Global, found: &Slices) -> Result<RowList, NoMemory>
    ensures { IfOk result (λ rows. rows ≡ ascending_rows (sliced_rows found.now.slices)) }
{
    let rows = found.all_rows(alloc)?;
    let rows = ascending(rows)?;
    Ok(rows)
}
