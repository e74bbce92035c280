//! What touched a statement.
use lt_face::items::Items;
use lt_face::key::Key;
use lt_face::row::Row;

/// What of a sense covers a row: where the state had the row a hit, and else a gap, told by the least one that the row lies in, in
/// its own order of columns.
#[derive(Debug, Drop, PartialEq)]
pub enum Spot {
    Gap { prefix: Row, lo: Key, hi: Key },
    Hit,
}

/// A statement, numbered from 1, that is evaluated again; the first row, by relation and row, on which the states before it
/// don't agree and that its old sense covers; and what of that sense covers it.
#[derive(Drop)]
pub struct Touch {
    pub statement: u32,
    pub relation: u32,
    pub row: Row,
    pub spot: Spot,
}

/// At most one for each statement, in their order.
pub type Touches = Items<Touch>;
