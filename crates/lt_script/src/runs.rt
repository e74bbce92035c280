//! How far a run of bytes at the front goes. Each is one pass over the run.
ghost use Rattle.std.specs.Prelude.{◌≡◌, ◌≤◌, length, not, ◌==◌};
ghost use Rattle.std.specs.List.{prefix_len};
ghost use Rattle.lt_model.specs.Tokens.{in_word as is_in_word, is_digit as is_a_digit};

// Most bytes of words are letters, so these are looked at first.
fn in_word(byte: u8) -> bool
    ensures { result ≡ is_in_word byte }
{
    matches!(byte, b'a'..=b'z') || matches!(byte, b'0'..=b'9' | b'_')
}

/// How many bytes at the front may stand in a word.
pub fn word_len(bytes: &[u8]) -> usize
    ensures len { result ≡ prefix_len is_in_word bytes.now }
    ensures within { result ≤ length bytes.now }
{
    'bytes: for (i, byte) in bytes.iter().enumerate() {
        if !in_word(*byte) {
            return i;
        }
    }
    bytes.len()
}

/// How many bytes at the front are digits.
pub fn digits_len(bytes: &[u8]) -> usize
    ensures len { result ≡ prefix_len is_a_digit bytes.now }
    ensures within { result ≤ length bytes.now }
{
    'bytes: for (i, byte) in bytes.iter().enumerate() {
        if !matches!(*byte, b'0'..=b'9') {
            return i;
        }
    }
    bytes.len()
}

/// How many bytes stand before the next line feed.
pub fn line_len(bytes: &[u8]) -> usize
    ensures len { result ≡ prefix_len (λ c. not (c == 10)) bytes.now }
    ensures within { result ≤ length bytes.now }
{
    'bytes: for (i, byte) in bytes.iter().enumerate() {
        if *byte == b'\n' {
            return i;
        }
    }
    bytes.len()
}
