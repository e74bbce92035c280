//! What the poster tells a reader.
use crate::front::Front;

mod telling;

/// What was posted until it was made, with a share of the posted database that it was made on.
#[derive(Drop)]
pub struct Told {
    pub(crate) front: Front,
}
