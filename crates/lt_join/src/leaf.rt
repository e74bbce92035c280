//! What the keys of all levels give.
ghost use Rattle.std.specs.Prelude.{◌≡◌, ◌≤◌, ◌+◌, ◌⊎◌, true, false, length, IfOk, OnOk};
ghost use Rattle.lt_face.specs.Lists.{IsIn};
ghost use Rattle.lt_face.specs.State.{Row as RowView};
ghost use Rattle.lt_model.specs.Answers.{cells_of};
ghost use Rattle.lt_join.specs.Known.{IsKnown};
ghost use Rattle.lt_join.specs.Values.{assigned, values_in};
ghost use Rattle.lt_join.specs.Walked.{IsReached, IsRight};
ghost use Rattle.lt_join.specs.Way.{HasWalked};

use crate::Found;
use crate::conditions::{all_pass, give_each};
use crate::looking_up::lacks_each;
use crate::path::Path;
use crate::values::Values;
use crate::way::Way;
use lt_face::indexes::Indexes;
use lt_face::memory::NoMemory;
use lt_face::moves::Moves;
use lt_face::row::Row;
use lt_query::Term;
use lt_sense::Senses;

/// Whether the last of the rows is that of the terms' cells.
fn is_last(values: &Values, terms: &[Term], rows: &[Row]) -> bool
    ensures { result ≡ true → IsIn (cells_of (assigned (values_in values.now.cells)) terms.now) rows.now }
{
    let Some(last) = rows.last() else {
        return false;
    };
    let cells = last.cells();
    if cells.len() != terms.len() {
        return false;
    }
    for i in 0..terms.len() {
        if cells[i] != values.cell(terms[i]) {
            return false;
        }
    }
    true
}

/// Adds the row that the values give, unless it is the last one already or the first answer suffices.
#[inline]
fn add_row<'a, I: Indexes, S: Senses>(
    way: &Way<'a, I>,
    values: &Values,
    found: &mut Found<S>,
) -> Result<(), NoMemory>
    ensures added { OnOk result (way.now.first ≡ false → IsIn (cells_of (assigned (values_in values.now.cells)) way.now.terms) found.new.rows) }
    ensures kept { OnOk result ((row : RowView) → IsIn row found.old.rows → IsIn row found.new.rows) }
    ensures each { OnOk result ((row : RowView) → IsIn row found.new.rows → IsIn row found.old.rows ⊎ (row ≡ cells_of (assigned (values_in values.now.cells)) way.now.terms)) }
    ensures first { way.now.first ≡ true → found.new.rows ≡ found.old.rows }
    ensures sense { found.new.sense ≡ found.old.sense }
{
    if way.first || (way.may_repeat() && is_last(values, way.terms, found.rows.as_slice())) {
        return Ok(());
    }
    found.rows.push(values.row(way.alloc, way.terms))?;
    Ok(())
}

/// Adds the answer that the values give, where they give one, and answers whether the walk stops there. They are those of the keys of
/// all levels.
pub(crate) fn at_leaf<'a, I: Indexes, S: Senses, L>(
    way: &Way<'a, I>,
    _keys: &Path,
    values: &Values,
    found: &mut Found<S>,
    moves: &mut Moves<L>,
) -> Result<bool, NoMemory>
    requires full { length _keys.now ≡ length way.now.plan.levels }
    requires known { IsKnown way.now.plan.levels _keys.now (values_in values.now.cells) }
    requires reached { IsReached way.now.plan found.old.sense _keys.now }
    requires right { IsRight way.now.body way.now.terms way.now.state found.old }
    ensures walked { IfOk result (HasWalked way.now _keys.now found.old found.new moves.old moves.new) }
    // also where memory is refused
    ensures cost { moves.new ≤ moves.old + length way.now.body.absents }
    ensures moves { moves.old ≤ moves.new }
{
    let tests = way.body.tests.as_slice();
    let absents = way.body.absents.as_slice();
    if tests.is_empty() && absents.is_empty() {
        add_row(way, values, found)?;
        return Ok(way.stops());
    }
    let mut all = *values;
    give_each(&mut all, tests);
    if !all_pass(&all, tests) {
        return Ok(false);
    }
    let lacks = lacks_each(
        way.alloc,
        way.tables,
        &way.look_ups,
        absents,
        &all,
        &mut found.sense,
        moves,
    )?;
    if !lacks {
        return Ok(false);
    }
    add_row(way, &all, found)?;
    Ok(way.stops())
}
