//! How far a restatement has come.
use crate::touch::Touches;
use lt_delta::Marks;

/// The marks of the old tally before the next statement, and the touches so far.
#[derive(Drop)]
pub(crate) struct Walk {
    pub past: Marks,
    pub touches: Touches,
}
