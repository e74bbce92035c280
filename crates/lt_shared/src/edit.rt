//! Edits of a list of levels behind an `Arc`: made in place where it has one owner, and in a copy where it has more.
ghost use Rattle.std.specs.Prelude.{◌≡◌, ◌<◌, ◌≤◌, ◌+◌, length, IfOk, OnOk, OnErr};
ghost use Rattle.std.specs.Arc.{arc_value};
ghost use Rattle.lt_face.specs.Rows.{IsAscending};
ghost use Rattle.lt_shared.specs.Entries.{below_rows, joined, two_for, AreParts, Grows, Shrinks, IsPlace, IsPut, IsTaken, IfHalves};

use crate::copies::{parted, splice_copy};
use crate::entry::{Entry, Listed, Put, Taken};
use crate::level::Level;
use crate::search::{place, place_behind};
use lt_face::{Moves, NoMemory, Row};
use std::sync::Arc;

/// Puts two levels in the place of one.
fn set_two<T: Entry, L>(
    entries: &mut Vec<Level<T>>,
    at: usize,
    a: Level<T>,
    b: Level<T>,
    made: &mut Moves<L>,
) -> Result<(), NoMemory>
    requires { at < length entries.old.items }
    ensures ok { OnOk result (entries.new.items ≡ two_for entries.old.items at a b) }
    ensures err { OnErr result (entries.new.items ≡ entries.old.items) }
    ensures made { made.new ≤ made.old + 2 }
{
    entries.insert(at + 1, b)?;
    entries[at] = a;
    made.tick();
    made.tick();
    Ok(())
}

/// Puts a row into the entry at its place in a list that has one owner.
fn put_alone<T: Listed, L>(
    entries: &mut Vec<Level<T>>,
    at: usize,
    row: &Row,
    limit: usize,
    made: &mut Moves<L>,
) -> Result<Put<Vec<Level<T>>>, NoMemory>
    requires rises { IsAscending (below_rows T.rows entries.old.items) }
    requires parts { 1 < limit }
    requires place { IsPlace (λ level. joined T.rows level) entries.old.items row.now at }
    ensures ok { IfOk result (λ put. IsPut (λ v. below_rows T.rows v.items) put (below_rows T.rows entries.old.items) (below_rows T.rows entries.new.items) row.now) }
    ensures err { OnErr result (below_rows T.rows entries.new.items ≡ below_rows T.rows entries.old.items) }
    ensures grows { Grows limit (λ level. T.is_many (length level)) entries.old.items entries.new.items }
    ensures full { IfOk result (λ put. IfHalves put (λ a b. limit ≤ length entries.old.items)) }
    ensures halves { IfOk result (λ put. IfHalves put (λ a b. AreParts (length entries.old.items) (length a.items) (length b.items))) }
    ensures made { made.new ≤ made.old + T.most + length entries.old.items + 2 }
    ensures made_full { limit ≤ length entries.old.items → made.new ≤ made.old + T.most + length entries.old.items + 1 }
{
    let entry = &mut entries[at];
    let put = entry.put(row, made)?;
    match put {
        Put::Was => Ok(Put::Was),
        Put::Fits => Ok(Put::Fits),
        Put::Halves(a, b) => {
            if entries.len() < limit {
                set_two(entries, at, a, b, made)?;
                return Ok(Put::Fits);
            }
            let alloc = *entries.allocator();
            let (first, second) = parted(alloc, entries, at, at + 1, &[a, b], made)?;
            Ok(Put::Halves(first, second))
        }
    }
}

/// Puts a row into the entry at its place, in a copy of the list.
fn put_shared<T: Listed, L>(
    entries: &mut Arc<Vec<Level<T>>>,
    at: usize,
    row: &Row,
    limit: usize,
    made: &mut Moves<L>,
) -> Result<Put<Vec<Level<T>>>, NoMemory>
    requires rises { IsAscending (below_rows T.rows (arc_value entries.old).items) }
    requires parts { 1 < limit }
    requires place { IsPlace (λ level. joined T.rows level) (arc_value entries.old).items row.now at }
    ensures ok { IfOk result (λ put. IsPut (λ v. below_rows T.rows v.items) put (below_rows T.rows (arc_value entries.old).items) (below_rows T.rows (arc_value entries.new).items) row.now) }
    ensures err { OnErr result (below_rows T.rows (arc_value entries.new).items ≡ below_rows T.rows (arc_value entries.old).items) }
    ensures grows { Grows limit (λ level. T.is_many (length level)) (arc_value entries.old).items (arc_value entries.new).items }
    ensures full { IfOk result (λ put. IfHalves put (λ a b. limit ≤ length (arc_value entries.old).items)) }
    ensures halves { IfOk result (λ put. IfHalves put (λ a b. AreParts (length (arc_value entries.old).items) (length a.items) (length b.items))) }
    ensures made { made.new ≤ made.old + T.most + length (arc_value entries.old).items + 2 }
    ensures made_full { limit ≤ length (arc_value entries.old).items → made.new ≤ made.old + T.most + length (arc_value entries.old).items + 1 }
{
    let old = &entries[at];
    let mut entry = old.share()?;
    let put = entry.put(row, made)?;
    match put {
        Put::Was => Ok(Put::Was),
        Put::Fits => {
            splice_copy(entries, at, at + 1, &[entry], made)?;
            Ok(Put::Fits)
        }
        Put::Halves(a, b) => {
            if entries.len() < limit {
                splice_copy(entries, at, at + 1, &[a, b], made)?;
                return Ok(Put::Fits);
            }
            let alloc = *entries.allocator();
            let (first, second) = parted(alloc, entries, at, at + 1, &[a, b], made)?;
            Ok(Put::Halves(first, second))
        }
    }
}

/// Puts a row into a list that is to have at most so many entries.
pub fn put_below<T: Listed, L>(
    entries: &mut Arc<Vec<Level<T>>>,
    row: &Row,
    limit: usize,
    made: &mut Moves<L>,
) -> Result<Put<Vec<Level<T>>>, NoMemory>
    requires rises { IsAscending (below_rows T.rows (arc_value entries.old).items) }
    requires some { 0 < length (arc_value entries.old).items }
    requires parts { 1 < limit }
    ensures ok { IfOk result (λ put. IsPut (λ v. below_rows T.rows v.items) put (below_rows T.rows (arc_value entries.old).items) (below_rows T.rows (arc_value entries.new).items) row.now) }
    ensures err { OnErr result (below_rows T.rows (arc_value entries.new).items ≡ below_rows T.rows (arc_value entries.old).items) }
    ensures grows { Grows limit (λ level. T.is_many (length level)) (arc_value entries.old).items (arc_value entries.new).items }
    ensures full { IfOk result (λ put. IfHalves put (λ a b. limit ≤ length (arc_value entries.old).items)) }
    ensures halves { IfOk result (λ put. IfHalves put (λ a b. AreParts (length (arc_value entries.old).items) (length a.items) (length b.items))) }
    ensures made { made.new ≤ made.old + T.most + length (arc_value entries.old).items + 2 }
    ensures made_full { limit ≤ length (arc_value entries.old).items → made.new ≤ made.old + T.most + length (arc_value entries.old).items + 1 }
{
    let at = place_behind(entries, row);
    match Arc::get_mut(entries) {
        Some(alone) => put_alone(alone, at, row, limit, made),
        None => put_shared(entries, at, row, limit, made),
    }
}

/// Takes a row out of the entry at its place in a list that has one owner.
fn take_alone<T: Listed, L>(
    entries: &mut Vec<Level<T>>,
    at: usize,
    row: &Row,
    made: &mut Moves<L>,
) -> Result<Taken, NoMemory>
    requires rises { IsAscending (below_rows T.rows entries.old.items) }
    requires place { IsPlace (λ level. joined T.rows level) entries.old.items row.now at }
    ensures ok { IfOk result (λ taken. IsTaken taken (below_rows T.rows entries.old.items) (below_rows T.rows entries.new.items) row.now) }
    ensures err { OnErr result (below_rows T.rows entries.new.items ≡ below_rows T.rows entries.old.items) }
    ensures shrinks { Shrinks entries.old.items entries.new.items }
    ensures made { made.new ≤ made.old + T.most + length entries.old.items + 1 }
{
    let entry = &mut entries[at];
    let taken = entry.take_out(row, made)?;
    match taken {
        Taken::Missing => Ok(Taken::Missing),
        Taken::Out => Ok(Taken::Out),
        Taken::Last => {
            if entries.len() == 1 {
                return Ok(Taken::Last);
            }
            entries.remove(at);
            Ok(Taken::Out)
        }
    }
}

/// Takes a row out of the entry at its place, in a copy of the list.
fn take_shared<T: Listed, L>(
    entries: &mut Arc<Vec<Level<T>>>,
    at: usize,
    row: &Row,
    made: &mut Moves<L>,
) -> Result<Taken, NoMemory>
    requires rises { IsAscending (below_rows T.rows (arc_value entries.old).items) }
    requires place { IsPlace (λ level. joined T.rows level) (arc_value entries.old).items row.now at }
    ensures ok { IfOk result (λ taken. IsTaken taken (below_rows T.rows (arc_value entries.old).items) (below_rows T.rows (arc_value entries.new).items) row.now) }
    ensures err { OnErr result (below_rows T.rows (arc_value entries.new).items ≡ below_rows T.rows (arc_value entries.old).items) }
    ensures shrinks { Shrinks (arc_value entries.old).items (arc_value entries.new).items }
    ensures made { made.new ≤ made.old + T.most + length (arc_value entries.old).items + 1 }
{
    let old = &entries[at];
    let mut entry = old.share()?;
    let taken = entry.take_out(row, made)?;
    match taken {
        Taken::Missing => Ok(Taken::Missing),
        Taken::Out => {
            splice_copy(entries, at, at + 1, &[entry], made)?;
            Ok(Taken::Out)
        }
        Taken::Last => {
            if entries.len() == 1 {
                return Ok(Taken::Last);
            }
            let none = [];
            splice_copy(entries, at, at + 1, &none, made)?;
            Ok(Taken::Out)
        }
    }
}

/// Takes a row out of a list of entries.
pub fn take_below<T: Listed, L>(
    entries: &mut Arc<Vec<Level<T>>>,
    row: &Row,
    made: &mut Moves<L>,
) -> Result<Taken, NoMemory>
    requires rises { IsAscending (below_rows T.rows (arc_value entries.old).items) }
    requires some { 0 < length (arc_value entries.old).items }
    ensures ok { IfOk result (λ taken. IsTaken taken (below_rows T.rows (arc_value entries.old).items) (below_rows T.rows (arc_value entries.new).items) row.now) }
    ensures err { OnErr result (below_rows T.rows (arc_value entries.new).items ≡ below_rows T.rows (arc_value entries.old).items) }
    ensures shrinks { Shrinks (arc_value entries.old).items (arc_value entries.new).items }
    ensures made { made.new ≤ made.old + T.most + length (arc_value entries.old).items + 1 }
{
    let at = place(entries, row);
    match Arc::get_mut(entries) {
        Some(alone) => take_alone(alone, at, row, made),
        None => take_shared(entries, at, row, made),
    }
}
