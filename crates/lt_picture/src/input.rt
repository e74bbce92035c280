//! The input as a whole.
ghost use Rattle.std.specs.Prelude.{◌≤◌, length, IfOk};
ghost use Rattle.std.specs.Io.KnownBytes.{Consumes, IsAtEnd};

use crate::stop::Stop;
use lt_edges::Source;
use std::alloc::Global;

/// The most bytes that are read.
pub const LIMIT: usize = 67_108_864;

// So many bytes are read at a time.
const PIECE: usize = 4096;

/// All bytes that are left of a source.
pub fn read_all<S: Source>(alloc: Global, source: &mut S) -> Result<Vec<u8>, Stop>
    ensures taken { IfOk result (λ bytes. Consumes (S.left source.old) (S.left source.new) bytes.items) }
    ensures all { IfOk result (λ _. IsAtEnd (S.left source.new)) }
    ensures within { IfOk result (λ bytes. length bytes.items ≤ LIMIT) }
{
    let mut bytes = Vec::new(alloc);
    let mut piece = [0; PIECE];
    'reads: loop {
        let Ok(read) = source.read(&mut piece) else {
            return Err(Stop::ReadFailed);
        };
        if read == 0 {
            return Ok(bytes);
        }
        if read > LIMIT - bytes.len() {
            return Err(Stop::TooLong);
        }
        bytes.extend_from_slice(&piece[..read])?;
    }
}
