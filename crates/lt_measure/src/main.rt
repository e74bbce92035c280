//! Measures searches of a set of rows, in nanoseconds each. `measure/search.rs`, at the top of the repository, makes the
//! same searches in plain Rust.
//!
//! `grid` makes the rows, `searches` are timed, `random` draws.
#![tactic(auto)]

ghost use Rattle.std.specs.Prelude.{◌≡◌, ◌<◌};

mod grid;
mod random;
mod searches;

use grid::{ROWS_A_KEY, grid};
use lt_face::RowSet;
use lt_flat::FlatRows;
use searches::{find_rows, seek_keys, walk_down};
use std::alloc::AllocError;
use std::time::Instant;
use std::{env, io};

/// How many searches are timed.
const SEARCHES: u32 = 1_000_000;

fn main(rt: HostRuntime) -> io::Result<()> {
    let asked = env::args(&rt)?
        .nth(1)
        .and_then(|word| word.parse::<u32>().ok());
    match asked {
        Some(keys) => measure(&rt, keys.clamp(1, 1_000_000)),
        None => println!(rt;
            "lt_measure KEYS: times searches of a set of 1000 rows for each of KEYS keys"
        ),
    }
}

/// Lays out a set with this many keys at its first level, and times the searches of it.
fn measure(rt: &HostRuntime, keys: u32) -> io::Result<()>
    requires { 0 < keys }
{
    let rows = grid(rt.alloc(), keys, ROWS_A_KEY).map_err(|_| AllocError)?;
    let start = Instant::now(rt)?;
    let set = FlatRows::from_sorted(2, rows).map_err(|_| AllocError)?;
    search(rt, &set, keys, start)
}

/// Writes how long the set took to be made, and times the searches of it.
fn search(rt: &HostRuntime, set: &FlatRows, keys: u32, start: Instant) -> io::Result<()>
    requires keys { 0 < keys }
    requires pairs { set.now.width ≡ 2 }
{
    println!(rt; "from_sorted: {} ns", start.elapsed(rt)?.as_nanos())?;
    let alloc = rt.alloc();
    let start = Instant::now(rt)?;
    report(
        rt,
        "row_at_least",
        start,
        find_rows(alloc, set, keys, SEARCHES),
    )?;
    let start = Instant::now(rt)?;
    report(
        rt,
        "copy and seek",
        start,
        seek_keys(alloc, set, keys, SEARCHES),
    )?;
    let start = Instant::now(rt)?;
    report(
        rt,
        "open, seek, open, seek",
        start,
        walk_down(alloc, set, keys, SEARCHES),
    )
}

/// Writes what one search took since the start, and the sum that shows that it was made.
fn report(rt: &HostRuntime, what: &str, start: Instant, sum: u128) -> io::Result<()> {
    let each = start.elapsed(rt)?.as_nanos() / SEARCHES as u128;
    println!(rt; "{what}: {each} ns (sum {sum})")
}
