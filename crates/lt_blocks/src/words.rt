//! What single lines say. A line is here without its line feed.
ghost use Rattle.std.specs.Prelude.{◌≡◌, ◌<◌, ◌^◌, ◌++◌, ◌∷◌, ℕ, List, codes, decimal, not, ◌==◌, length, ◌≤◌, IfSome, IfNone};
ghost use Rattle.std.specs.List.{prefix_len};
ghost use Rattle.lt_blocks.specs.declared.words.Header.{Header as HeaderType};
ghost use Rattle.lt_batch.specs.declared.replaying.Written.{Written as WrittenType};
ghost use Rattle.lt_blocks.specs.Lines.{entry_words, header_words, IsEntry, IsHeader, Lacks, Says};

use itoa::Buffer;
use lt_batch::Written;
use std::str;

/// The first line of a block: the batch's number, how many programs it has, how many entries follow.
#[derive(Clone, Copy)]
pub struct Header {
    pub batch: u32,
    pub programs: u32,
    pub entries: u32,
}

/// What a line says between two blocks.
#[derive(Clone, Copy)]
pub enum Line {
    /// A block begins.
    Header(Header),
    /// The script begins behind this line.
    Script,
    /// Nothing that may stand there.
    Other,
}

// How many bytes stand before the first space.
fn word_len(line: &[u8]) -> usize
    ensures len { result ≡ prefix_len (λ c. not (c == 32)) line.now }
    ensures within { result ≤ length line.now }
{
    'bytes: for (i, byte) in line.iter().enumerate() {
        if *byte == b' ' {
            return i;
        }
    }
    line.len()
}

// What stands before the first space, and behind it.
fn split_word(line: &[u8]) -> Option<(&[u8], &[u8])>
    ensures some { IfSome result (λ parts. (line.now ≡ parts.0.now ++ 32 ∷ parts.1.now) × Lacks 32 parts.0.now) }
    ensures none { IfNone result (Lacks 32 line.now) }
{
    let len = word_len(line);
    let within = len < line.len();
    if !within {
        return None;
    }
    let (word, _) = line.split_at(len);
    let (_, behind) = line.split_at(len + 1);
    Some((word, behind))
}

// The number that a word spells as it is written: no sign, no zeros before it, below 2^32.
fn number_of(word: &[u8]) -> Option<u32>
    ensures some { IfSome result (λ number. (word.now ≡ decimal number) × (number < 2 ^ 32)) }
    ensures none { IfNone result ((number : ℕ) → number < 2 ^ 32 → word.now ≡ decimal number → ⊥) }
{
    let Ok(text) = str::from_utf8(word) else {
        return None;
    };
    let Ok(number) = text.parse::<u32>() else {
        return None;
    };
    let mut buffer = Buffer::new();
    let spelled = buffer.format(number) == text;
    if spelled { Some(number) } else { None }
}

// The number at the front, and what stands behind the space after it.
fn take_number(line: &[u8]) -> Option<(u32, &[u8])>
    ensures some { IfSome result (λ parts. (line.now ≡ decimal parts.0 ++ 32 ∷ parts.1.now) × (parts.0 < 2 ^ 32)) }
    ensures none { IfNone result ((number : ℕ) (rest : List ℕ) → number < 2 ^ 32 → line.now ≡ decimal number ++ 32 ∷ rest → ⊥) }
{
    let Some((word, rest)) = split_word(line) else {
        return None;
    };
    let Some(number) = number_of(word) else {
        return None;
    };
    Some((number, rest))
}

// What stands behind the word `trace`.
fn behind_trace(line: &[u8]) -> Option<&[u8]>
    ensures some { IfSome result (λ rest. line.now ≡ codes "trace " ++ rest.now) }
    ensures none { IfNone result ((rest : List ℕ) → line.now ≡ codes "trace " ++ rest → ⊥) }
{
    line.strip_prefix(b"trace ")
}

// The first line of a block, where the line is one.
fn header_of(line: &[u8]) -> Option<Header>
    ensures some { IfSome result (λ header. (line.now ≡ header_words header) × IsHeader header) }
    ensures none { IfNone result ((header : HeaderType) → IsHeader header → line.now ≡ header_words header → ⊥) }
{
    let Some(first) = behind_trace(line) else {
        return None;
    };
    let Some((batch, second)) = take_number(first) else {
        return None;
    };
    let Some((programs, third)) = take_number(second) else {
        return None;
    };
    let Some(entries) = number_of(third) else {
        return None;
    };
    Some(Header {
        batch,
        programs,
        entries,
    })
}

/// The entry that the line is, where it is one.
pub fn entry_of(line: &[u8]) -> Option<Written>
    ensures some { IfSome result (λ entry. (line.now ≡ entry_words entry) × IsEntry entry) }
    ensures none { IfNone result ((entry : WrittenType) → IsEntry entry → line.now ≡ entry_words entry → ⊥) }
{
    let Some((worker, rest)) = take_number(line) else {
        return None;
    };
    let Some(code) = number_of(rest) else {
        return None;
    };
    Some(Written { worker, code })
}

/// What the line says between two blocks.
pub fn line_of(line: &[u8]) -> Line
    ensures { Says line.now result }
{
    if line == b"script".as_slice() {
        return Line::Script;
    }
    match header_of(line) {
        Some(header) => Line::Header(header),
        None => Line::Other,
    }
}
