//! Where in a text the first fault stands, and what may stand there. Both are found by reading fronts of the text.
use crate::pieces::push_all;
use crate::tokens::first_token;
use lt_face::NoMemory;
use lt_script::{Feed, FeedStep};
use memchr::memchr;
use std::alloc::Global;

/// Where a token stands in its line.
#[derive(Clone, Copy)]
pub struct Span {
    pub start: usize,
    pub end: usize,
}

/// Where something isn't right: the line and the column, from 1 on, and which code it has.
#[derive(Clone, Copy)]
pub struct Spot {
    pub line: u64,
    pub column: u64,
    pub code: u32,
}

// What a fault is called where the text ends inside an item.
const CUT: u32 = 7;

// What may stand somewhere, and how it is told.
const CANDIDATES: [(&str, &str); 34] = [
    ("x", "a name"),
    ("1", "a number"),
    ("'a'", "a symbol"),
    (";", "\";\""),
    (",", "\",\""),
    ("(", "\"(\""),
    (")", "\")\""),
    ("->", "\"->\""),
    ("=", "\"=\""),
    ("<", "\"<\""),
    ("+", "\"+\""),
    ("-", "\"-\""),
    ("int", "int"),
    ("sym", "sym"),
    ("at", "at"),
    ("by", "by"),
    ("where", "where"),
    ("not", "not"),
    ("some", "some"),
    ("none", "none"),
    ("insert", "insert"),
    ("delete", "delete"),
    ("replace", "replace"),
    ("require", "require"),
    ("print", "print"),
    ("program", "program"),
    ("end", "end"),
    ("commit", "commit"),
    ("relation", "relation"),
    ("batch", "batch"),
    ("show", "show"),
    ("!=", "\"!=\""),
    ("<=", "\"<=\""),
    (">", "\">\""),
];

// A feed of a text that ends so.
fn feed_of(alloc: Global, text: &[u8], more: &[u8]) -> Result<Feed, NoMemory> {
    let mut feed = Feed::new(alloc);
    feed.push(text)?;
    feed.push(more)?;
    feed.end();
    Ok(feed)
}

// Whether among so many steps of a feed there is a fault before its end.
fn meets_fault(alloc: Global, feed: &mut Feed, most: usize) -> Result<bool, NoMemory> {
    for _ in 0..most {
        match feed.next_step(alloc) {
            FeedStep::Item(_) => {}
            FeedStep::Fault { code, .. } => return Ok(code != CUT),
            FeedStep::NoMemory => return Err(NoMemory),
            FeedStep::End | FeedStep::More => return Ok(false),
        }
    }
    Ok(false)
}

// Whether a text that ends so has a fault before its end.
fn is_faulty(alloc: Global, text: &[u8], more: &[u8]) -> Result<bool, NoMemory> {
    let mut feed = feed_of(alloc, text, more)?;
    meets_fault(alloc, &mut feed, text.len())
}

/// The text from its line of this number on, from 0, and that line without its line feed.
pub fn line_at(text: &[u8], number: u64) -> (usize, &[u8]) {
    let mut rest = text;
    for _ in 0..number {
        let Some(end) = memchr(b'\n', rest) else {
            break;
        };
        let (_, behind) = rest.split_at(end.saturating_add(1).min(rest.len()));
        rest = behind;
    }
    let end = memchr(b'\n', rest).unwrap_or(rest.len());
    let (line, _) = rest.split_at(end.min(rest.len()));
    (text.len().saturating_sub(rest.len()), line)
}

// Where the tokens of a line stand.
fn spans(alloc: Global, line: &[u8]) -> Result<Vec<Span>, NoMemory> {
    let mut spans = Vec::new(alloc);
    let mut rest = line;
    for _ in 0..line.len() {
        let Some((token, behind)) = first_token(rest) else {
            break;
        };
        let end = line.len().saturating_sub(behind.len());
        spans.push(Span {
            start: end.saturating_sub(token.len()),
            end,
        })?;
        rest = behind;
    }
    Ok(spans)
}

// The item's text up to a place.
fn item_up_to(text: &[u8], from: usize, place: usize) -> &[u8] {
    let (front, _) = text.split_at(place.min(text.len()));
    let (_, item) = front.split_at(from.min(front.len()));
    item
}

// The number of the first token up to whose end the item has a fault, or how many there are. So many bytes stand before the line.
fn first_faulty(
    alloc: Global,
    text: &[u8],
    from: usize,
    before: usize,
    spans: &[Span],
) -> Result<usize, NoMemory> {
    let mut low = 0;
    let mut high = spans.len();
    for _ in 0..usize::BITS {
        if low >= high {
            break;
        }
        let middle = low + (high - low) / 2;
        let Some(span) = spans.get(middle) else {
            break;
        };
        let item = item_up_to(text, from, before.saturating_add(span.end));
        if is_faulty(alloc, item, b"")? {
            high = middle;
        } else {
            low = middle + 1;
        }
    }
    Ok(low)
}

/// Where in the line of this number the token with the first fault stands. The text begins with an item that has it, and
/// `from` bytes in front of it are passed.
pub fn find_fault(alloc: Global, text: &[u8], from: usize, number: u64) -> Result<Span, NoMemory> {
    let (before, line) = line_at(text, number);
    let spans = spans(alloc, line)?;
    let first = first_faulty(alloc, text, from, before, &spans)?;
    match spans.get(first) {
        Some(span) => Ok(*span),
        None => Ok(Span {
            start: line.len(),
            end: line.len(),
        }),
    }
}

// Whether this token may stand behind a front of an item.
fn may_follow(alloc: Global, front: &[u8], token: &str) -> Result<bool, NoMemory> {
    let mut more = Vec::new(alloc);
    push_all(&mut more, &[b" ", token.as_bytes()])?;
    let faulty = is_faulty(alloc, front, &more)?;
    Ok(!faulty)
}

/// What may stand at this place of an item, which begins at `from`: the words for it, with commas.
pub fn allowed(alloc: Global, text: &[u8], from: usize, place: usize) -> Result<Vec<u8>, NoMemory> {
    let front = item_up_to(text, from, place);
    let mut told = Vec::new(alloc);
    for (token, words) in &CANDIDATES {
        if may_follow(alloc, front, token)? {
            let before: &[u8] = if told.is_empty() { b"" } else { b", " };
            push_all(&mut told, &[before, words.as_bytes()])?;
        }
    }
    Ok(told)
}
