//! What is read of a script.
ghost use Rattle.std.specs.Prelude.{◌≡◌, ◌≤◌, false, IsTrue, IfOk, IfErr};
ghost use Rattle.lt_runs.specs.declared.input.InputError.TheVariants as errors;
ghost use Rattle.lt_runs.specs.Input.{limit};
ghost use Rattle.lt_runs.specs.Reads.{ReadsOn, StopsReading};

use crate::endings::{begun_behind, may_end};
use lt_edges::{Failed, Source};
use lt_face::NoMemory;
use lt_script::Feed;

/// The most bytes that are read.
pub const LIMIT: usize = 16_777_216;

// So many bytes are read at a time.
const PIECE: usize = 4096;

// An item of which so much was looked at is a batch: no other is as long, but for comments.
const SHORT: usize = 256;

// Where more is kept, it is looked at only once it has grown much.
const LONG: usize = 1_048_576;

/// Why the input wasn't read on.
#[derive(Clone, Copy, Debug, PartialEq, Eq)]
pub enum InputError {
    NoMemory,
    Failed,
    TooLong,
}

impl From<NoMemory> for InputError {
    ghost from_gives = { λ _ e. e ≡ errors.NoMemory };

    fn from(_: NoMemory) -> Self {
        InputError::NoMemory
    }
}

impl From<Failed> for InputError {
    ghost from_gives = { λ _ e. e ≡ errors.Failed };

    fn from(_: Failed) -> Self {
        InputError::Failed
    }
}

/// How many bytes were taken from a source, and whether its end was met. Where a batch begins behind the last end of a batch in
/// what was read last, `begun` is how many bytes stand behind that end.
#[derive(Clone, Copy, Debug)]
pub struct Taken {
    pub count: usize,
    pub ended: bool,
    pub begun: Option<usize>,
}

impl Taken {
    /// Whether the feed, which keeps so many bytes, stands before a batch whose end isn't among them, and more bytes are at hand.
    pub fn is_inside(&self, kept: usize) -> bool
        ensures { IsTrue result → self.now.ended ≡ false }
    {
        !self.ended && self.begun == Some(kept)
    }
}

// What `begun` is behind this piece. Behind a short one nothing may be at hand.
fn begun(piece: &[u8]) -> Option<usize> {
    if piece.len() < PIECE {
        return None;
    }
    begun_behind(piece)
}

// Whether the feed is asked again behind this piece, where it kept `looked` bytes when it was last asked. As it looks at all
// bytes that it keeps, it isn't while a batch has no end in sight, unless who feeds the source may wait for an answer: the
// source has no more at hand. Where much is kept, it isn't before that is four times as much.
fn is_asked(piece: &[u8], kept: usize, looked: usize) -> bool {
    if looked < SHORT {
        return true;
    }
    if kept > LONG {
        return kept / 4 >= looked;
    }
    piece.len() < PIECE || may_end(piece)
}

/// Feeds what comes next of a source from which `count` bytes were taken: one piece, or more where an item is long.
pub fn read_on<S: Source>(
    source: &mut S,
    feed: &mut Feed,
    count: usize,
) -> Result<Taken, InputError>
    requires open { feed.old.ended ≡ false }
    requires within { count ≤ limit }
    ensures ok { IfOk result (λ taken. ReadsOn feed.old feed.new count taken (S.left source.old) (S.left source.new)) }
    ensures err { IfErr result (λ error. StopsReading error count (S.left source.old) (S.left source.new) (S.faults source.old) (S.faults source.new)) }
    ensures later { S.faults source.old ≤ S.faults source.new }
{
    let looked = feed.kept();
    let mut taken = count;
    let mut piece = [0; PIECE];
    'reads: loop {
        let read = source.read(&mut piece)?;
        if read == 0 {
            feed.end();
            return Ok(Taken {
                count: taken,
                ended: true,
                begun: None,
            });
        }
        if read > LIMIT - taken {
            return Err(InputError::TooLong);
        }
        taken += read;
        feed.push(&piece[..read])?;
        let asks = is_asked(&piece[..read], feed.kept(), looked);
        if asks {
            return Ok(Taken {
                count: taken,
                ended: false,
                begun: begun(&piece[..read]),
            });
        }
    }
}
