//! The blocks in front of a script, read from a source.
ghost use Rattle.std.specs.Prelude.{◌≡◌, ◌≤◌, false, IfOk, IfErr};
ghost use Rattle.lt_runs.specs.FrontReads.{ReadsFront, TakesRest};
ghost use Rattle.lt_runs.specs.Input.{limit};
ghost use Rattle.lt_runs.specs.Reads.{StopsReading};

use crate::input::{InputError, LIMIT};
use lt_blocks::{Block, Reader, Stage};
use lt_edges::Source;
use lt_script::Feed;
use std::alloc::Global;

// So many bytes are read at a time.
const PIECE: usize = 4096;

/// What stands in front of a script.
#[derive(Drop)]
pub enum Front {
    /// These blocks. So many bytes were taken, and what was taken of the script was fed.
    Blocks { blocks: Vec<Block>, count: usize },
    /// A line that isn't of the form wanted there, or is missing. The source was read to its end.
    Bad { line: u64 },
}

/// Reads a source to its end, of which `count` bytes were taken before.
pub fn read_rest<S: Source>(source: &mut S, count: usize) -> Result<(), InputError>
    requires within { count ≤ limit }
    ensures ok { IfOk result (λ _. TakesRest count (S.left source.old) (S.left source.new)) }
    ensures err { IfErr result (λ error. StopsReading error count (S.left source.old) (S.left source.new) (S.faults source.old) (S.faults source.new)) }
    ensures later { S.faults source.old ≤ S.faults source.new }
{
    let mut taken = count;
    let mut piece = [0; PIECE];
    'reads: loop {
        let read = source.read(&mut piece)?;
        if read == 0 {
            return Ok(());
        }
        if read > LIMIT - taken {
            return Err(InputError::TooLong);
        }
        taken += read;
    }
}

/// Reads the blocks and the line `script`.
pub fn read_front<S: Source>(
    alloc: Global,
    source: &mut S,
    feed: &mut Feed,
) -> Result<Front, InputError>
    requires open { feed.old.ended ≡ false }
    ensures ok { IfOk result (λ front. ReadsFront front feed.old feed.new (S.left source.old) (S.left source.new)) }
    ensures err { IfErr result (λ error. StopsReading error 0 (S.left source.old) (S.left source.new) (S.faults source.old) (S.faults source.new)) }
    ensures later { S.faults source.old ≤ S.faults source.new }
{
    let mut reader = Reader::new(alloc);
    let mut count = 0;
    let mut piece = [0; PIECE];
    'reads: loop {
        let read = source.read(&mut piece)?;
        if read == 0 {
            let line = reader.bad_line();
            return Ok(Front::Bad { line });
        }
        if read > LIMIT - count {
            return Err(InputError::TooLong);
        }
        count += read;
        let used = reader.push(alloc, &piece[..read])?;
        match reader.stage() {
            Stage::Reading => {}
            Stage::Script => {
                feed.push(&piece[used..read])?;
                let blocks = reader.into_blocks();
                return Ok(Front::Blocks { blocks, count });
            }
            Stage::Bad => {
                let line = reader.bad_line();
                read_rest(source, count)?;
                return Ok(Front::Bad { line });
            }
        }
    }
}
