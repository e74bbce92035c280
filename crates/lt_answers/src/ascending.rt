//! Rows in ascending order, without repeats.
ghost use Rattle.std.specs.Prelude.{◌≡◌, true, IfOk};
ghost use Rattle.lt_face.specs.Rows.{IsAscending};
ghost use Rattle.lt_model.specs.Answers.{ascending as ascending_rows};

use lt_face::items::{Items, RowList};
use lt_face::memory::NoMemory;
use lt_face::row::Row;

/// Whether each row is below the next.
fn are_ascending(rows: &[Row]) -> bool
    ensures { result ≡ true → IsAscending rows.now }
{
    for i in 1..rows.len() {
        if !rows[i - 1].cmp(&rows[i]).is_lt() {
            return false;
        }
    }
    true
}

/// The rows in ascending order, each once. Rows that are in order already aren't sorted.
pub fn ascending(mut rows: Vec<Row>) -> Result<RowList, NoMemory>
    ensures { IfOk result (λ sorted. sorted ≡ ascending_rows rows.items) }
{
    if are_ascending(&rows) {
        return Ok(Items::from_vec(rows));
    }
    rows.sort()?;
    rows.dedup();
    Ok(Items::from_vec(rows))
}
