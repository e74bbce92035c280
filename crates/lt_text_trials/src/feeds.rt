//! Scripts in pieces.
ghost use Rattle.std.specs.Prelude.{◌≡◌};

use crate::agree::{same, same_at};
use lt_script::{Feed, FeedStep};
use std::alloc::Global;

/// What a feed answers. A fault has its line and its code.
#[derive(Clone, Copy, Debug, PartialEq, Eq)]
enum Answer {
    Item,
    End,
    Fault(u64, u32),
    More,
    NoMemory,
}

use Answer::{End, Fault, Item, More};

// What is answered next.
fn next(alloc: Global, feed: &mut Feed) -> Answer
    ensures { feed.new.ended ≡ feed.old.ended }
{
    match feed.next_step(alloc) {
        FeedStep::Item(_) => Item,
        FeedStep::End => End,
        FeedStep::Fault { line, code } => Fault(line, code),
        FeedStep::More => More,
        FeedStep::NoMemory => Answer::NoMemory,
    }
}

// The place of the first piece behind which another answer is given, or another number of bytes is kept.
fn first_other(alloc: Global, pieces: &[(&[u8], Answer, usize)]) -> Option<usize> {
    let mut feed = Feed::new(alloc);
    'pieces: for (i, (piece, answer, kept)) in pieces.iter().enumerate() {
        let is_pushed = feed.push(*piece).is_ok();
        if !is_pushed || next(alloc, &mut feed) != *answer || feed.kept() != *kept {
            return Some(i);
        }
    }
    None
}

// Scripts in pieces, by name; the last one is also cut in the middle of tokens.
const IN_PIECES: [(&str, &[(&[u8], Answer, usize)]); 4] = [
    (
        "an item in three pieces",
        &[(b"show", More, 4), (b" x", More, 6), (b";", Item, 0)],
    ),
    (
        "a wrong byte, at once",
        &[(b"@", Fault(1, 1), 0), (b"show x;", Fault(1, 1), 0)],
    ),
    (
        "the byte behind a long word",
        &[(b"abcdefghijklmnop", More, 16), (b";", Fault(1, 5), 0)],
    ),
    (
        "what was cut is joined",
        &[
            // a symbol, and a sign of two bytes
            (b"batch program p insert r('a", More, 27),
            (b"b'); end; commit;", Item, 0),
            (b"batch program p require some x <", More, 32),
            (b"= y; end; commit;", Item, 0),
            // an arrow
            (b"relation f(int -", More, 16),
            (b"> int);", Item, 0),
            // a comment that goes on
            (b"show # x;", More, 9),
            (b"y;\nz;", Item, 0),
            // bytes behind an item, and nothing more
            (b"show x; # y", Item, 4),
            (b"", More, 4),
            (b"\nshow", More, 9),
            (b" z;show z;", Item, 7),
            (b"", Item, 0),
            // a fault in the middle of an item, once it is decided
            (b"relation r(int,\n", More, 16),
            (b"show", More, 20),
            (b" ", Fault(4, 2), 0),
        ],
    ),
];

#[test]
fn answers_as_soon_as_it_may(rt: HostRuntime) {
    for (name, pieces) in IN_PIECES {
        same_at(&rt, first_other(rt.alloc(), pieces), None, name);
    }
}

// How many items a script has that is pushed byte by byte, and what is answered at its end.
fn byte_by_byte(alloc: Global, script: &[u8]) -> (usize, Answer) {
    let mut feed = Feed::new(alloc);
    let mut items: usize = 0;
    'bytes: for byte in script {
        if feed.push(&[*byte]).is_err() {
            return (items, Answer::NoMemory);
        }
        match next(alloc, &mut feed) {
            Item => items = items.saturating_add(1),
            More => {}
            other => return (items, other),
        }
    }
    feed.end();
    (items, next(alloc, &mut feed))
}

#[test]
fn is_the_same_byte_by_byte(rt: HostRuntime) {
    let script =
        b"relation r(int, sym);\nbatch program p insert r(-1, 'ab'); # c;\n require some r(x, y), x <= 2; end; commit;show r at 1;";
    same(&rt, byte_by_byte(rt.alloc(), script), (3, End));
}
