//! The constants of a statement that is kept by a form, whose own statement has their numbers.
use lt_face::key::Key;
use lt_model::form::{Kept, Wording};

/// What stands for a statement's cells: its constants by their numbers, from 1, or the cells themselves.
#[derive(Clone, Copy)]
pub struct Cells<'a> {
    by_number: Option<&'a [Key]>,
}

impl<'a> Cells<'a> {
    /// Those of a statement.
    pub fn of(wording: &'a Wording) -> Cells<'a> {
        match wording.kept() {
            Kept::Whole(_) => Cells { by_number: None },
            Kept::Filled(_, cells) => Cells {
                by_number: Some(cells.as_slice()),
            },
        }
    }

    /// The constant that a cell stands for.
    pub fn cell(self, cell: Key) -> Key {
        let Some(cells) = self.by_number else {
            return cell;
        };
        let place = cell.saturating_sub(1);
        if place >= cells.len() as u128 {
            return cell;
        }
        cells[place as usize]
    }
}
