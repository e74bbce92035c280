//! Runs of rows of a set that has edits laid over it.
ghost use Rattle.std.specs.Prelude.{◌≡◌, ◌<◌, ◌≤◌, ◌++◌, ◌∷◌, ℕ, List, [], Some, false, length, slice_get};
ghost use Rattle.std.specs.List.{AllByRecursion};
ghost use Rattle.std.specs.Option.{option_copied};
ghost use Rattle.std.specs.declared.cmp.Ordering.TheVariants.{Less};
ghost use Rattle.lt_face.specs.Rows.{row_cmp, IsAscending, IsRun, first_from};
ghost use Rattle.lt_over.specs.Layers.{IsLayer, under};
ghost use Rattle.lt_over.specs.Overlaid.{IsFront, is_reached};

use crate::layer::Layer;
use crate::search::least_from;
use lt_face::{Key, Near, Row, RowReads};
use lt_flat::place_near;
use std::slice;

/// The first rows of a run, those that are below a row.
fn below<'a>(run: &'a [Row], edit: &Row) -> &'a [Row]
    requires rises { IsAscending run.now }
    requires wide { AllByRecursion (λ row. length row ≡ length edit.now) run.now }
    ensures front { IsFront run.now result.now }
    ensures below { AllByRecursion (λ row. row_cmp row edit.now ≡ Less) result.now }
{
    match edit.cells().split_last() {
        Some((last, prefix)) => &run[..place_near(run, run.len(), prefix, *last)],
        None => &run[..0],
    }
}

/// The first rows of a run, those that are below an edit, where there is one.
fn before<'a>(run: &'a [Row], edit: Option<&Row>) -> &'a [Row]
    requires rises { IsAscending run.now }
    requires wide { (row : List ℕ) → option_copied edit ≡ Some row → AllByRecursion (λ other. length other ≡ length row) run.now }
    ensures front { IsFront run.now result.now }
    ensures off { AllByRecursion (λ row. is_reached (option_copied edit.entry) row ≡ false) result.now }
{
    match edit {
        Some(edit) => below(run, edit),
        None => run,
    }
}

/// A row that was found, alone.
fn alone(found: Option<&Row>) -> &[Row]
    ensures first { slice_get result.now 0 ≡ option_copied found.entry }
    ensures few { length result.now ≤ 1 }
{
    match found {
        Some(row) => slice::from_ref(row),
        None => &[],
    }
}

/// What a run of the base is under edits: its rows before the first edit, or where that comes first, the least row alone.
pub(crate) fn run_under<'a, B: RowReads>(
    base: &'a B,
    layer: &'a Layer,
    near: &mut Near,
    run: &'a [Row],
    prefix: &[Key],
    bound: Key,
) -> &'a [Row]
    requires narrow { length prefix.now < B.width_of base.now }
    requires layer { IsLayer (B.width_of base.now) layer.now }
    requires first { slice_get run.now 0 ≡ first_from (B.rows base.now) (prefix.now ++ bound ∷ []) }
    requires run { IsRun (B.rows base.now) run.now }
    ensures first { slice_get result.now 0 ≡ first_from (under (B.rows base.now) layer.now) (prefix.now ++ bound ∷ []) }
    ensures run { IsRun (under (B.rows base.now) layer.now) result.now }
{
    let _width = base.width();
    let gone = layer.gone().row_near(&mut Near::start(), prefix, bound);
    let come = layer.come().row_near(&mut Near::start(), prefix, bound);
    let own = before(before(run, gone), come);
    if !own.is_empty() {
        return own;
    }
    alone(least_from(base, layer, near, run.first(), come))
}
