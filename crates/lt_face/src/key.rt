//! Keys, and the gap that a move leaves behind it.

/// A cell of a row, as the tries and joins see it.
pub type Key = u128;

/// What an iterator at its end answers. No cell is as great.
pub const END: Key = u128::MAX;

/// The first key above all cells.
pub const CELL_LIMIT: Key = 1 << 120;

/// The keys from `lo` to below `hi`: a move passed them and met none. It is empty where `hi` is not above `lo`.
#[derive(Clone, Copy, Debug, PartialEq, Eq)]
pub struct Gap {
    pub lo: Key,
    pub hi: Key,
}
