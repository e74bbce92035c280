//! A script that makes the present state.
use crate::inserts::Inserts;
use crate::schema_text::declaration;
use lt_base::Database;
use lt_face::NoMemory;
use lt_face::row_set::RowReads;
use lt_face::walk::RowWalk;
use lt_model::kind::{Kind, KindList};
use lt_model::name::Name;
use std::alloc::Global;

// Adds the rows of a set.
fn add_rows<R: RowReads>(
    alloc: Global,
    inserts: &mut Inserts,
    name: &[u8],
    kinds: &[Kind],
    rows: &R,
) -> Result<(), NoMemory> {
    let mut walk = RowWalk::over(alloc, rows);
    for _ in 0..walk.len() {
        let Some(row) = walk.next_row() else {
            break;
        };
        inserts.add(name, kinds, row.cells())?;
    }
    Ok(())
}

// Adds the rows of all relations.
fn add_all(
    alloc: Global,
    inserts: &mut Inserts,
    headings: &[(Name, KindList, u32)],
    database: &Database,
) -> Result<(), NoMemory> {
    let mut number = 0u32;
    for (name, kinds, _) in headings {
        if let Some(rows) = database.rows(number) {
            add_rows(alloc, inserts, name.as_bytes(), kinds.as_slice(), rows)?;
        }
        number = number.saturating_add(1);
    }
    Ok(())
}

/// The declarations of these relations, and batches that insert all rows.
pub fn dump_text(
    alloc: Global,
    headings: &[(Name, KindList, u32)],
    database: &Database,
) -> Result<Inserts, NoMemory> {
    let mut inserts = Inserts::new(alloc);
    for (name, kinds, keys) in headings {
        let text = declaration(alloc, name, kinds, *keys)?;
        inserts.text.extend_from_slice(&text)?;
        inserts.text.extend_from_slice(b"\n")?;
    }
    add_all(alloc, &mut inserts, headings, database)?;
    inserts.close()?;
    Ok(inserts)
}
