//! Tokens, as far as is needed to say where one stands. What a token means the reader of scripts says alone.
use memchr::memchr;

// Whether a byte may stand in a word, a number or a symbol.
fn is_in_word(byte: u8) -> bool {
    byte.is_ascii_lowercase() || byte.is_ascii_digit() || byte == b'_'
}

// What stands behind a comment whose `#` was passed.
fn behind_comment(text: &[u8]) -> &[u8] {
    match memchr(b'\n', text) {
        Some(end) => {
            let (_, behind) = text.split_at(end.min(text.len()));
            behind
        }
        None => &[],
    }
}

/// What stands behind white space and comments.
pub fn behind_blank(text: &[u8]) -> &[u8] {
    let mut rest = text.trim_ascii_start();
    for _ in 0..text.len() {
        let Some(comment) = rest.strip_prefix(b"#") else {
            return rest;
        };
        rest = behind_comment(comment).trim_ascii_start();
    }
    rest
}

// How many bytes in front pass the test.
fn digits_len(text: &[u8]) -> usize {
    let behind = text.iter().position(|byte| !byte.is_ascii_digit());
    behind.unwrap_or(text.len())
}

fn word_len(text: &[u8]) -> usize {
    let behind = text.iter().position(|byte| !is_in_word(*byte));
    behind.unwrap_or(text.len())
}

// How many bytes a symbol has, with its quotes, or what stands in the place of the second one.
fn symbol_len(text: &[u8]) -> usize {
    let Some((_, behind)) = text.split_first() else {
        return 0;
    };
    let inside = word_len(behind);
    inside.saturating_add(2)
}

// How many bytes the token has with which a text begins that isn't blank.
fn token_len(text: &[u8]) -> usize {
    let pairs = text.starts_with(b"->")
        || text.starts_with(b"<=")
        || text.starts_with(b">=")
        || text.starts_with(b"!=");
    if pairs {
        return 2;
    }
    match text.first() {
        Some(b'\'') => symbol_len(text),
        Some(b'0'..=b'9') => digits_len(text),
        Some(byte) if is_in_word(*byte) => word_len(text),
        _ => 1,
    }
}

/// The first token of a text, and what stands behind it.
pub fn first_token(text: &[u8]) -> Option<(&[u8], &[u8])> {
    let front = behind_blank(text);
    if front.is_empty() {
        return None;
    }
    Some(front.split_at(token_len(front).min(front.len())))
}

/// Whether nothing but white space and comments stands there.
pub fn is_blank(text: &[u8]) -> bool {
    behind_blank(text).is_empty()
}

/// The last two tokens of a text; an empty one where there are fewer.
pub fn last_tokens(text: &[u8]) -> (&[u8], &[u8]) {
    let mut rest = text;
    let mut before: &[u8] = &[];
    let mut last: &[u8] = &[];
    for _ in 0..text.len() {
        let Some((token, behind)) = first_token(rest) else {
            return (before, last);
        };
        before = last;
        last = token;
        rest = behind;
    }
    (before, last)
}

/// Whether the last token is a semicolon.
pub fn ends_statement(text: &[u8]) -> bool {
    last_tokens(text).1 == b";".as_slice()
}

/// Whether the last tokens are those that end a batch.
pub fn ends_batch(text: &[u8]) -> bool {
    let (before, last) = last_tokens(text);
    before == b"commit".as_slice() && last == b";".as_slice()
}

/// Whether the text begins with this word.
pub fn begins_with(text: &[u8], word: &[u8]) -> bool {
    match first_token(text) {
        Some((token, _)) => token == word,
        None => false,
    }
}

/// Whether the text begins as a statement does.
pub fn begins_statement(text: &[u8]) -> bool {
    begins_with(text, b"insert")
        || begins_with(text, b"delete")
        || begins_with(text, b"replace")
        || begins_with(text, b"require")
        || begins_with(text, b"print")
}
