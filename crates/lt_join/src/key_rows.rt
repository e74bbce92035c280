//! The rows of slices: a list of the keys that have some, in ascending order, each with its rows.
ghost use Rattle.std.specs.Prelude.{◌≡◌, ◌≤◌, ◌<◌, ◌++◌, length, filter, drop, IfOk, OnOk};
ghost use Rattle.lt_query.specs.Lists.{IsRising};
ghost use Rattle.lt_join.specs.Slices.{AreBelow, is_above, is_below, put_rows as put_at, row_keys, rows_in, rows_of_key};

use lt_face::items::RowList;
use lt_face::key::Key;
use lt_face::memory::NoMemory;
use lt_face::row::Row;
use std::alloc::Global;
use std::marker::Model;
use std::sync::Arc;

/// A key's rows, which several lists may own.
#[derive(Drop)]
pub struct KeyRows {
    key: Key,
    rows: Arc<RowList>,
}

impl Model for KeyRows {
    ghost use Rattle.std.specs.Arc.{arc_value};
    ghost use Rattle.lt_join.specs.Slices.{KeyRows as KeyRowsView};

    ghost Value = { KeyRowsView };

    ghost view = { λ r. record { key = r.key; rows = arc_value r.rows } };
}

impl KeyRows {
    /// The rows of a key, with one owner.
    fn new(alloc: Global, key: Key, rows: RowList) -> Result<KeyRows, NoMemory>
        ensures { IfOk result (λ made. made ≡ record { key = key; rows = rows }) }
    {
        let rows = Arc::new(alloc, rows)?;
        Ok(KeyRows { key, rows })
    }

    /// A second owner of the same rows.
    fn share(&self) -> Result<KeyRows, NoMemory>
        ensures { IfOk result (λ shared. shared ≡ self.now) }
    {
        let rows = self.rows.clone()?;
        Ok(KeyRows {
            key: self.key,
            rows,
        })
    }

    /// The key.
    fn key(&self) -> Key
        ensures { result ≡ self.now.key }
    {
        self.key
    }

    /// Its rows.
    fn rows(&self) -> &[Row]
        ensures { result.now ≡ self.now.rows }
    {
        self.rows.as_slice()
    }
}

/// Adds a key's rows at the end, where there are some.
pub(crate) fn add_key(
    alloc: Global,
    all: &mut Vec<KeyRows>,
    key: Key,
    rows: RowList,
) -> Result<(), NoMemory>
    ensures { OnOk result (all.new.items ≡ all.old.items ++ rows_of_key key rows) }
{
    if rows.len() == 0 {
        return Ok(());
    }
    let rows = KeyRows::new(alloc, key, rows)?;
    all.push(rows)?;
    Ok(())
}

/// Shares from a place on what stands with keys below this one, and answers the place of the first whose key is above it.
fn share_below(
    out: &mut Vec<KeyRows>,
    old: &[KeyRows],
    from: usize,
    key: Key,
) -> Result<usize, NoMemory>
    requires ascending { IsRising (row_keys old.now) }
    requires from { from ≤ length old.now }
    ensures within { IfOk result (λ next. next ≤ length old.now) }
    ensures below { OnOk result (out.new.items ≡ out.old.items ++ filter (is_below key) (drop from old.now)) }
    ensures above { IfOk result (λ next. drop next old.now ≡ filter (is_above key) (drop from old.now)) }
{
    for i in from..old.len() {
        let rows = &old[i];
        let other = rows.key();
        if other == key {
            return Ok(i + 1);
        }
        if key < other {
            return Ok(i);
        }
        let shared = rows.share()?;
        out.push(shared)?;
    }
    Ok(old.len())
}

/// Shares what stands from a place on.
pub(crate) fn share_from(
    out: &mut Vec<KeyRows>,
    old: &[KeyRows],
    from: usize,
) -> Result<(), NoMemory>
    requires { from ≤ length old.now }
    ensures { OnOk result (out.new.items ≡ out.old.items ++ drop from old.now) }
{
    for i in from..old.len() {
        let rows = &old[i];
        let shared = rows.share()?;
        out.push(shared)?;
    }
    Ok(())
}

/// Puts a key's rows in the place of those that stood there: `out` has what stands before a place, all of keys below this one, and the
/// list the rest. Answers the place where the rest begins then.
pub(crate) fn put_rows(
    alloc: Global,
    out: &mut Vec<KeyRows>,
    old: &[KeyRows],
    from: usize,
    key: Key,
    rows: RowList,
) -> Result<usize, NoMemory>
    requires ascending { IsRising (row_keys old.now) }
    requires from { from ≤ length old.now }
    requires below { AreBelow out.old.items key }
    ensures within { IfOk result (λ next. next ≤ length old.now) }
    ensures put { IfOk result (λ next. out.new.items ++ drop next old.now ≡ put_at key rows (out.old.items ++ drop from old.now)) }
    ensures out { OnOk result (out.new.items ≡ out.old.items ++ (filter (is_below key) (drop from old.now) ++ rows_of_key key rows)) }
    ensures above { IfOk result (λ next. drop next old.now ≡ filter (is_above key) (drop from old.now)) }
{
    let next = share_below(out, old, from, key)?;
    add_key(alloc, out, key, rows)?;
    Ok(next)
}

/// Adds the rows at the end.
fn add_rows(out: &mut Vec<Row>, rows: &[Row]) -> Result<(), NoMemory>
    ensures { OnOk result (out.new.items ≡ out.old.items ++ rows.now) }
{
    for row in rows {
        let row = row.copy_row();
        out.push(row)?;
    }
    Ok(())
}

/// All rows, key after key.
pub(crate) fn rows_by_key(alloc: Global, all: &[KeyRows]) -> Result<Vec<Row>, NoMemory>
    ensures { IfOk result (λ rows. rows.items ≡ rows_in all.now) }
{
    let mut rows = Vec::new(alloc);
    for one in all {
        add_rows(&mut rows, one.rows())?;
    }
    Ok(rows)
}
