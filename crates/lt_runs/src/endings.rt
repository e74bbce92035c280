//! Where batches end in a piece of a script.
use memchr::memmem;

// What ends a batch, with a `;` behind it.
const COMMIT: &[u8] = b"commit";

// What stands behind the last "commit".
fn behind_commit(piece: &[u8]) -> Option<&[u8]> {
    let at = memmem::rfind(piece, COMMIT)?;
    let (_, behind) = piece.split_at(at + COMMIT.len());
    Some(behind)
}

// Whether "commit" may have begun in the piece before this one.
fn begins_within(piece: &[u8]) -> bool {
    piece.starts_with(b"ommit")
        || piece.starts_with(b"mmit")
        || piece.starts_with(b"mit")
        || piece.starts_with(b"it;")
        || piece.starts_with(b"t;")
}

/// Whether a batch may end in the piece.
pub fn may_end(piece: &[u8]) -> bool {
    let behind = behind_commit(piece);
    behind.is_some() || begins_within(piece)
}

/// How many bytes stand behind the last end of a batch, where another batch begins there. Its end isn't in the piece.
pub fn begun_behind(piece: &[u8]) -> Option<usize> {
    let behind = behind_commit(piece)?;
    let rest = behind.trim_ascii_start().strip_prefix(b";")?;
    if rest.trim_ascii_start().starts_with(b"batch") {
        return Some(rest.len());
    }
    None
}
