//! Scripts as bytes, and what a reader answers.
use crate::agree::same_at;
use lt_script::{Item, Reader, Step};
use std::alloc::Global;

/// What a reader answers, in short: how many columns and key columns a relation has, how many programs a batch, which version is asked
/// for; of a fault its line and its code.
#[derive(Clone, Copy, Debug, PartialEq, Eq)]
enum Answer {
    Relation(usize, u32),
    Batch(usize),
    Show(Option<u64>),
    End,
    Fault(u64, u32),
    NoMemory,
}

use Answer::{Batch, End, Fault, Relation, Show};

fn answer_of(step: &Step) -> Answer {
    match step {
        Step::Item(Item::Relation { kinds, keys, .. }) => Relation(kinds.as_slice().len(), *keys),
        Step::Item(Item::Batch { programs }) => Batch(programs.as_slice().len()),
        Step::Item(Item::Show { at, .. }) => Show(*at),
        Step::End => End,
        Step::Fault { line, code } => Fault(*line, *code),
        Step::NoMemory => Answer::NoMemory,
    }
}

// The place of the first answer that is another one.
fn first_other(alloc: Global, script: &str, answers: &[Answer]) -> Option<usize> {
    let mut reader = Reader::over(script.as_bytes());
    for (i, answer) in answers.iter().enumerate() {
        if answer_of(&reader.next_item(alloc)) != *answer {
            return Some(i);
        }
    }
    None
}

// What stands last is answered again and again.
const SCRIPTS: [(&str, &[Answer]); 3] = [
    (
        "relation stock(int, sym, int); show x at 0012; show stock; relation price(sym, int -> int); # none",
        &[
            Relation(3, 3),
            Show(Some(12)),
            Show(None),
            Relation(3, 2),
            End,
            End,
        ],
    ),
    (
        "batch program p insert r(1); end; program q require none r(x), x > 1; end; commit; batch commit;",
        &[Batch(2), Batch(0), End],
    ),
    (
        "show r;\n'abcdefghijklmnop'",
        &[Show(None), Fault(2, 4), Fault(2, 4)],
    ),
];

#[test]
fn reads_items(rt: HostRuntime) {
    for (script, answers) in SCRIPTS {
        same_at(&rt, first_other(rt.alloc(), script, answers), None, script);
    }
}
