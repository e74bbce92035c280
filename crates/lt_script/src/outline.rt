//! Outlines of texts: a number that texts have in common which differ in constants alone. It is only a filter: no clause speaks of it.

// What a byte is to an outline: a letter, a digit, a quote, or any other.
const LETTER: u8 = 1;

const DIGIT: u8 = 2;

const QUOTE: u8 = 3;

// Where a byte stands: behind none of these, in a word, in a number, or between quotes.
const WORD: u8 = 1;

const NUMBER: u8 = 2;

const QUOTES: u8 = 3;

// That a byte counts.
const COUNTS: u8 = 4;

// By where the byte before stands and by what a byte is: where it stands, and whether it counts. Digits of numbers and bytes of symbols
// don't.
const STEPS: [u8; 16] = [
    COUNTS,
    WORD + COUNTS,
    NUMBER,
    QUOTES + COUNTS,
    COUNTS,
    WORD + COUNTS,
    WORD + COUNTS,
    QUOTES + COUNTS,
    COUNTS,
    WORD + COUNTS,
    NUMBER,
    QUOTES + COUNTS,
    COUNTS,
    QUOTES,
    QUOTES,
    COUNTS,
];

fn kind_of(byte: u8) -> u8 {
    match byte {
        b'a'..=b'z' | b'_' => LETTER,
        b'0'..=b'9' => DIGIT,
        b'\'' => QUOTE,
        _ => 0,
    }
}

/// The outline of what stands before the first semicolon.
pub fn outline_of(bytes: &[u8]) -> u64 {
    let mut hash: u64 = 1;
    let mut stands: u8 = 0;
    'bytes: for byte in bytes {
        if *byte == b';' {
            return hash;
        }
        let step = STEPS[(((stands & 3) << 2) | (kind_of(*byte) & 3)) as usize];
        stands = step & 3;
        if step & COUNTS != 0 {
            hash = (hash ^ u64::from(*byte)).wrapping_mul(0x9E37_79B9_7F4A_7C15) ^ (hash >> 29);
        }
    }
    hash
}
