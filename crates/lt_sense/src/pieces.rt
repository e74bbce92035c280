//! Cells that stand together in a list of cells.
ghost use Rattle.std.specs.Prelude.{◌≡◌};
ghost use Rattle.lt_sense.specs.Pieces.{piece_of, IsPiece};

use lt_face::key::Key;

/// Cells that stand together in a list.
#[derive(Clone, Copy)]
pub struct Piece {
    pub start: usize,
    pub width: usize,
}

/// The cells of a piece.
pub(crate) fn cells_of(cells: &[Key], piece: Piece) -> &[Key]
    requires { IsPiece cells.now piece }
    ensures { result.now ≡ piece_of cells.now piece }
{
    &cells[piece.start..piece.start + piece.width]
}
