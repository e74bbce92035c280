//! Where things stand, in pixels.
ghost use Rattle.std.specs.Prelude.{◌≡◌, ◌+◌, ◌-◌, ◌*◌, ◌<◌, ◌≤◌, min};

/// The most entries of a batch that are drawn.
pub const MOST_DRAWN: u32 = 4096;

/// Where the lanes begin.
pub const LEFT: u64 = 90;

/// How wide the place of an entry is.
pub const STEP: u64 = 12;

/// How high a lane is, and a bar in it.
pub const LANE: u64 = 26;

pub const BAR: u64 = 20;

// How wide a letter is taken to be.
const LETTER: u64 = 8;

/// What the picture has above its first batch: the legend.
pub const LEGEND: u64 = 80;

// What a batch has above its lanes, and below them.
const TITLE: u64 = 34;

const BELOW: u64 = 62;

// How wide a picture is at least, and what is left free at its right edge.
const NARROW: u64 = 720;

const MARGIN: u64 = 20;

/// The left edge of an entry's place, where entries count from 1. The places of entries that aren't drawn are empty and
/// stand behind those that are.
pub fn left_of(entry: u32) -> u64
    ensures place { result ≡ LEFT + STEP * min (entry - 1) MOST_DRAWN }
    ensures within { result ≤ LEFT + STEP * MOST_DRAWN }
{
    right_of(entry.saturating_sub(1))
}

/// The right edge of an entry's place.
pub fn right_of(entry: u32) -> u64
    ensures place { result ≡ LEFT + STEP * min entry MOST_DRAWN }
    ensures within { result ≤ LEFT + STEP * MOST_DRAWN }
{
    LEFT + STEP * u64::from(entry.min(MOST_DRAWN))
}

/// How much room words of so many letters take at most.
pub fn room_for(letters: usize) -> u64
    ensures { result ≡ LETTER * min letters (MOST_DRAWN * STEP) }
{
    LETTER * (letters as u64).min(u64::from(MOST_DRAWN) * STEP)
}

/// The top of a worker's lane in its batch.
pub fn lane_top(worker: u32) -> u64
    ensures { result ≡ TITLE + LANE * worker }
{
    TITLE + LANE * u64::from(worker)
}

/// How high a batch with so many lanes is.
pub fn height_over(lanes: u32) -> u64
    ensures { result ≡ TITLE + LANE * lanes + BELOW }
{
    lane_top(lanes) + BELOW
}

/// How wide a picture is whose batches have so many entries at most.
pub fn width_over(entries: u32) -> u64
    ensures { LEFT + STEP * min entries MOST_DRAWN < result }
{
    (right_of(entries) + MARGIN).max(NARROW)
}
