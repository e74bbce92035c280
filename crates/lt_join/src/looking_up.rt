//! The rows that the negated atoms of a body name, looked up.
ghost use Rattle.std.specs.Prelude.{◌≡◌, ◌+◌, ◌<◌, ◌≤◌, ◌^◌, true, false, length, IfOk, OnOk};
ghost use Rattle.std.specs.List.{AllByRecursion, AllZip};
ghost use Rattle.lt_face.specs.Limits.{most_columns};
ghost use Rattle.lt_face.specs.Lists.{IsIn, AnyByRecursion};
ghost use Rattle.lt_face.specs.Rows.{has_row};
ghost use Rattle.lt_face.specs.State.{Row as RowView, Has};
ghost use Rattle.lt_model.specs.Answers.{cells_of};
ghost use Rattle.lt_query.specs.Lists.{below};
ghost use Rattle.lt_query.specs.Runnable.{AreAtomsWide};
ghost use Rattle.lt_sense.specs.declared.covering.KeptGap.{KeptGap as KeptGapView};
ghost use Rattle.lt_sense.specs.Sense.{IsTight, gap_covers};
ghost use Rattle.lt_join.specs.Certify.{IsGapped, IsHitOf};
ghost use Rattle.lt_join.specs.Cost.{GainsFewer};
ghost use Rattle.lt_join.specs.Holders.{IsLookUpFor, IsLookUpOf};
ghost use Rattle.lt_join.specs.Values.{values_in, assigned};
ghost use Rattle.lt_join.specs.Walked.{Grows};

use crate::values::Values;
use lt_face::indexes::Indexes;
use lt_face::items::Perm;
use lt_face::memory::NoMemory;
use lt_face::moves::Moves;
use lt_face::row::Row;
use lt_face::row_set::RowReads;
use lt_query::{Atom, Body, own_columns};
use lt_sense::{Sensed, Senses};
use std::alloc::Global;
use std::marker::Model;

/// Where a negated atom is looked up: its relation's first index, whose columns are in their own order.
#[derive(Drop)]
pub struct LookUp<'a, R: RowReads> {
    columns: Perm,
    rows: &'a R,
}

impl<'a, R: RowReads> Model for LookUp<'a, R> {
    ghost use Rattle.lt_join.specs.LookUp.{LookUpView};

    ghost Value = { LookUpView };

    ghost view = { λ t. record {
      columns = t.columns;
      width = R.width_of t.rows.now;
      rows = R.rows t.rows.now;
    } };
}

impl<'a, R: RowReads> LookUp<'a, R> {
    /// Looks up among these rows.
    fn among(columns: Perm, rows: &'a R) -> LookUp<'a, R>
        ensures columns { result.columns ≡ columns }
        ensures width { result.width ≡ R.width_of rows.now }
        ensures rows { result.rows ≡ R.rows rows.now }
    {
        LookUp { columns, rows }
    }

    /// Whether the row is there.
    fn has(&self, row: &Row) -> bool
        ensures { result ≡ has_row self.now.rows row.now }
    {
        self.rows.has(row)
    }

    /// The order of the columns.
    fn columns(&self) -> &Perm
        ensures { result.now ≡ self.now.columns }
    {
        &self.columns
    }
}

/// Where the negated atoms of the body are looked up.
pub(crate) fn look_ups_of<'a, I: Indexes>(
    alloc: Global,
    tables: &'a I,
    body: &Body,
) -> Result<Vec<LookUp<'a, I::Rows>>, NoMemory>
    requires wide { AreAtomsWide body.now.absents }
    requires has_firsts { AllByRecursion (λ atom. I.has_index tables.now atom.relation (below (length atom.terms)) ≡ true) body.now.absents }
    ensures { IfOk result (λ look_ups. AllZip (IsLookUpOf (I.state tables.now)) body.now.absents look_ups.items) }
{
    let mut look_ups = Vec::new(alloc);
    for atom in body.absents.as_slice() {
        let columns = own_columns(alloc, atom.terms.len())?;
        let rows = tables.index(atom.relation, &columns).unwrap();
        look_ups.push(LookUp::among(columns, rows))?;
    }
    Ok(look_ups)
}

/// Keeps the gap of the row's last cell, under its other cells. The state lacks the row.
fn keep_lack<'a, I: Indexes, S: Senses>(
    _tables: &'a I,
    columns: &Perm,
    relation: u32,
    row: Row,
    sense: &mut Sensed<S>,
) -> Result<(), NoMemory>
    requires columns { columns.now ≡ below (length row) }
    requires some { 0 < length row }
    requires narrow { length row ≤ most_columns }
    requires small { AllByRecursion (λ c. c < 2 ^ 120) row }
    requires wide { (other : RowView) → Has (I.state _tables.now) relation other → length other ≡ length row }
    requires absent { Has (I.state _tables.now) relation row → ⊥ }
    requires tight { IsTight sense.old (I.state _tables.now) }
    ensures grows { OnOk result (Grows sense.old sense.new) }
    ensures tight { OnOk result (IsTight sense.new (I.state _tables.now)) }
    ensures kept { OnOk result ((gap : KeptGapView) × IsIn gap sense.new.gaps × (gap_covers gap relation row ≡ true)) }
    ensures gaps { OnOk result (length sense.new.gaps ≤ length sense.old.gaps + 1) }
    ensures hits { OnOk result (sense.new.hits ≡ sense.old.hits) }
{
    let mut prefix = row;
    let Some(cell) = prefix.pop() else {
        return Ok(());
    };
    sense.add_gap(relation, columns, prefix.cells(), cell, cell + 1)?;
    Ok(())
}

/// Looks a row up, by one move, and answers whether it is there. A row that is there becomes a hit; of one that isn't the gap
/// of its last cell is kept, under its other cells.
fn look_up<'a, I: Indexes, S: Senses, L>(
    tables: &'a I,
    look_up: &LookUp<'a, I::Rows>,
    relation: u32,
    row: Row,
    sense: &mut Sensed<S>,
    moves: &mut Moves<L>,
) -> Result<bool, NoMemory>
    requires is { IsLookUpFor (I.state tables.now) relation (length row) look_up.now }
    requires some { 0 < length row }
    requires narrow { length row ≤ most_columns }
    requires small { AllByRecursion (λ c. c < 2 ^ 120) row }
    requires tight { IsTight sense.old (I.state tables.now) }
    ensures grows { OnOk result (Grows sense.old sense.new) }
    ensures tight { OnOk result (IsTight sense.new (I.state tables.now)) }
    ensures found { IfOk result (λ found. found ≡ true → IsIn (record { relation = relation; row = row }) sense.new.hits) }
    ensures missed { IfOk result (λ found. found ≡ false → (gap : KeptGapView) × IsIn gap sense.new.gaps × (gap_covers gap relation row ≡ true)) }
    ensures gains { OnOk result (GainsFewer sense.old sense.new moves.old moves.new) }
    // also where memory is refused
    ensures moves { moves.new ≡ moves.old + 1 }
{
    moves.tick();
    if look_up.has(&row) {
        sense.add_hit(relation, &row)?;
        return Ok(true);
    }
    keep_lack(tables, look_up.columns(), relation, row, sense)?;
    Ok(false)
}

/// Whether the state has none of the rows that these atoms name. They are looked up in text order, up to the first that is
/// there.
pub(crate) fn lacks_each<'a, I: Indexes, S: Senses, L>(
    alloc: Global,
    tables: &'a I,
    look_ups: &[LookUp<'a, I::Rows>],
    absents: &[Atom],
    values: &Values,
    sense: &mut Sensed<S>,
    moves: &mut Moves<L>,
) -> Result<bool, NoMemory>
    requires wide { AreAtomsWide absents.now }
    requires small { AllByRecursion (λ atom. AllByRecursion (λ c. c < 2 ^ 120) (cells_of (assigned (values_in values.now.cells)) atom.terms)) absents.now }
    requires look_ups { AllZip (IsLookUpOf (I.state tables.now)) absents.now look_ups.now }
    requires tight { IsTight sense.old (I.state tables.now) }
    ensures grows { OnOk result (Grows sense.old sense.new) }
    ensures tight { OnOk result (IsTight sense.new (I.state tables.now)) }
    ensures lacks { IfOk result (λ lacks. lacks ≡ true → AllByRecursion (IsGapped sense.new (assigned (values_in values.now.cells))) absents.now) }
    ensures finds { IfOk result (λ lacks. lacks ≡ false → AnyByRecursion (IsHitOf sense.new (assigned (values_in values.now.cells))) absents.now) }
    ensures gains { OnOk result (GainsFewer sense.old sense.new moves.old moves.new) }
    // also where memory is refused
    ensures cost { moves.new ≤ moves.old + length absents.now }
    ensures moves { moves.old ≤ moves.new }
{
    for i in 0..absents.len() {
        let atom = &absents[i];
        let row = values.row(alloc, atom.terms.as_slice());
        if look_up(tables, &look_ups[i], atom.relation, row, sense, moves)? {
            return Ok(false);
        }
    }
    Ok(true)
}
