//! Where a search of a set of rows ended.

/// Where a search of a set of rows ended: a search for a row nearby is short. It has no part in what is found.
#[derive(Clone, Copy, Debug, Drop, PartialEq, Eq)]
pub struct Near {
    /// The list that was searched last, where a set has several.
    pub list: usize,
    /// The place in it.
    pub at: usize,
}

impl Near {
    /// At the first row.
    pub fn start() -> Near {
        Near { list: 0, at: 0 }
    }
}
