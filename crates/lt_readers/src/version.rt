//! What is posted.
use lt_base::Database;

/// A database under its number. All versions of a board have one `most`, and none is posted under a number above it.
#[derive(Drop)]
pub struct Version {
    pub number: u64,
    pub most: u64,
    pub db: Database,
}
