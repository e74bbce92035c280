//! How the console answers.
ghost use Rattle.std.specs.Prelude.{◌≡◌, ◌≤◌, false};
ghost use Rattle.lt_face.specs.Limits.{most_workers};

use lt_face::limits::MOST_WORKERS;
use lt_world::options::Options;

/// Whether it talks to a person, whether it tells how long each item took, and how many workers run a batch.
#[derive(Clone, Copy)]
pub struct Settings {
    pub talks: bool,
    pub timed: bool,
    pub workers: u32,
}

/// How the world runs what the console has it run: by so many workers, from 1 to 16, each batch by itself.
pub fn options(workers: u32) -> Options
    ensures some { 1 ≤ result.workers }
    ensures few { result.workers ≤ most_workers }
    ensures unmarked { result.marks ≡ false }
{
    Options {
        workers: workers.clamp(1, MOST_WORKERS as u32),
        pipeline: 1,
        marks: false,
        trace: false,
    }
}
