//! Lines that the console has of its own.
use itoa::Buffer;
use lt_edges::{Failed, Sink};
use lt_input::places::Spot;
use lt_input::words::words_of;
use lt_report::put_line;

// Writes the line of an error that is about nothing.
fn put_bare<K: Sink>(sink: &mut K, spot: Spot) -> Result<(), Failed> {
    let mut first = Buffer::new();
    let mut second = Buffer::new();
    let mut third = Buffer::new();
    let line = first.format(spot.line).as_bytes();
    let column = second.format(spot.column).as_bytes();
    let code = third.format(spot.code).as_bytes();
    let words = words_of(spot.code).as_bytes();
    put_line(sink, &[b"error", line, column, code, words])
}

// Writes the line of an error, with what it is about.
fn put_about<K: Sink>(sink: &mut K, spot: Spot, words: &str, about: &[u8]) -> Result<(), Failed> {
    let mut first = Buffer::new();
    let mut second = Buffer::new();
    let mut third = Buffer::new();
    let line = first.format(spot.line).as_bytes();
    let column = second.format(spot.column).as_bytes();
    let code = third.format(spot.code).as_bytes();
    put_line(
        sink,
        &[b"error", line, column, code, words.as_bytes(), b"--", about],
    )
}

/// Writes the line of an error: its spot, its words, and what it is about, where that isn't empty.
pub fn put_error<K: Sink>(sink: &mut K, spot: Spot, about: &[u8]) -> Result<(), Failed> {
    if about.is_empty() {
        return put_bare(sink, spot);
    }
    put_about(sink, spot, words_of(spot.code), about)
}

/// Writes a line of a word and a number.
pub fn put_number<K: Sink>(sink: &mut K, word: &[u8], number: u64) -> Result<(), Failed> {
    let mut buffer = Buffer::new();
    put_line(sink, &[word, buffer.format(number).as_bytes()])
}

/// Writes what a code says, in brackets behind the line that has it.
pub fn put_reason<K: Sink>(sink: &mut K, code: u32) -> Result<(), Failed> {
    put_line(sink, &[b" ", words_of(code).as_bytes()])
}
