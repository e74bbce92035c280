//! Command lines.
use crate::agree::same_at;
use crate::running::words_of;
use lt_command::{Command, command_of};
use std::test::Fail;

// Command lines without the program's name, one word between spaces; how many workers they ask for, how many
// batches in a line, and whether for marks.
const LINES: [(&str, Option<(u32, u32, bool)>); 50] = [
    ("run", Some((4, 1, false))),
    ("run --workers 1", Some((1, 1, false))),
    ("run --workers 16", Some((16, 1, false))),
    ("run --workers=4", Some((4, 1, false))),
    ("run --workers 04", Some((4, 1, false))),
    ("run --workers +4", Some((4, 1, false))),
    ("run --", Some((4, 1, false))),
    ("run --workers 2 --", Some((2, 1, false))),
    ("run --marks", Some((4, 1, true))),
    ("run --marks --workers 2", Some((2, 1, true))),
    ("run --workers 2 --marks", Some((2, 1, true))),
    ("run --pipeline 1", Some((4, 1, false))),
    ("run --pipeline 8", Some((4, 8, false))),
    ("run --pipeline=2 --workers 2 --marks", Some((2, 2, true))),
    (
        "run --marks --workers 16 --pipeline 03",
        Some((16, 3, true)),
    ),
    ("", None),
    ("run --workers", None),
    ("run --workers 0", None),
    ("run --workers 17", None),
    ("run --workers -4", None),
    ("run --workers 4294967300", None),
    ("run --workers 4x", None),
    ("run --workers=", None),
    ("run --workers 4 --workers 4", None),
    ("run --work 4", None),
    ("run -w 4", None),
    ("--workers 4 run", None),
    ("run run", None),
    ("run -- run", None),
    ("run --marks=true", None),
    ("run --marks true", None),
    ("run --marks --marks", None),
    ("run -- --marks", None),
    ("run --readers 1", None),
    ("run --pipeline", None),
    ("run --pipeline 0", None),
    ("run --pipeline 9", None),
    ("run --pipeline two", None),
    ("run --pipeline 2 --pipeline 2", None),
    ("run --pipe 2", None),
    ("replay --pipeline 2", None),
    ("--marks run", None),
    ("--help", None),
    ("help", None),
    ("help run", None),
    ("run --help", None),
    ("run -h", None),
    ("run --version", None),
    ("ru", None),
    ("walk", None),
];

// Command lines of the bench: the seed, how many items and programs there are, how many workers, and how many readers.
const BENCHES: [(&str, Option<(u64, u32, u32, u32, u32)>); 23] = [
    (
        "bench --seed 1 --items 64 --programs 32",
        Some((1, 64, 32, 4, 0)),
    ),
    (
        "bench --workers 16 --programs 32 --items 64 --seed 1",
        Some((1, 64, 32, 16, 0)),
    ),
    (
        "bench --seed 0 --items 1 --programs 1",
        Some((0, 1, 1, 4, 0)),
    ),
    (
        "bench --seed 18446744073709551615 --items 16384 --programs 65536",
        Some((18_446_744_073_709_551_615, 16_384, 65_536, 4, 0)),
    ),
    (
        "bench --seed 1 --items 64 --programs 32 --readers 0",
        Some((1, 64, 32, 4, 0)),
    ),
    (
        "bench --seed 1 --items 64 --programs 32 --readers 1",
        Some((1, 64, 32, 4, 1)),
    ),
    (
        "bench --readers=8 --seed 1 --items 64 --programs 32 --workers 2",
        Some((1, 64, 32, 2, 8)),
    ),
    ("bench", None),
    ("bench --items 64 --programs 32", None),
    ("bench --seed 1 --programs 32", None),
    ("bench --seed 1 --items 64", None),
    (
        "bench --seed 18446744073709551616 --items 64 --programs 32",
        None,
    ),
    ("bench --seed -1 --items 64 --programs 32", None),
    ("bench --seed 1 --items 0 --programs 32", None),
    ("bench --seed 1 --items 16385 --programs 32", None),
    ("bench --seed 1 --items 64 --programs 0", None),
    ("bench --seed 1 --items 64 --programs 65537", None),
    ("bench --seed 1 --items 64 --programs 32 --marks", None),
    ("bench --seed 1 --items 64 --programs 32 --pipeline 2", None),
    ("bench --seed 1 --items 64 --programs 32 --readers 9", None),
    ("bench --seed 1 --items 64 --programs 32 --readers -1", None),
    ("bench --seed 1 --items 64 --programs 32 --readers", None),
    (
        "bench --seed 1 --items 64 --programs 32 --readers 1 --readers 1",
        None,
    ),
];

#[test]
fn asks_for_a_run(rt: HostRuntime) -> Result<(), Fail> {
    for (line, options) in LINES {
        let words = words_of(rt.alloc(), line)?;
        let asked = command_of(rt.alloc(), &words)?;
        let expected = match options {
            Some((workers, pipeline, marks)) => Some(Command::Run {
                workers,
                pipeline,
                marks,
                trace: false,
            }),
            None => None,
        };
        same_at(&rt, asked, expected, line);
    }
    Ok(())
}

#[test]
fn asks_for_a_bench(rt: HostRuntime) -> Result<(), Fail> {
    for (line, numbers) in BENCHES {
        let words = words_of(rt.alloc(), line)?;
        let asked = command_of(rt.alloc(), &words)?;
        let expected = match numbers {
            Some((seed, items, programs, workers, readers)) => Some(Command::Bench {
                seed,
                items,
                programs,
                workers,
                readers,
            }),
            None => None,
        };
        same_at(&rt, asked, expected, line);
    }
    Ok(())
}
