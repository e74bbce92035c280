//! Whether the last token may become another one where more bytes come.
ghost use Rattle.std.specs.Prelude.{◌≡◌};
ghost use Rattle.lt_script.specs.View.{IsGapless};
ghost use Rattle.lt_script.specs.Pieces.{goes_on as may_go_on};

use crate::runs::{digits_len, word_len};

/// Whether these bytes are nothing, or one token that more bytes may make longer. No white space and no comment stands
/// first.
#[tactic(auto, using(crate::proofs::Tails::tail_letter, crate::proofs::Tails::tail_line, crate::proofs::Tails::tail_digit, crate::proofs::Tails::tail_quote))]
pub fn goes_on(bytes: &[u8]) -> bool
    requires { IsGapless bytes.now }
    ensures { result ≡ may_go_on bytes.now }
{
    let Some((first, after)) = bytes.split_first() else {
        return true;
    };
    match *first {
        b'a'..=b'z' | b'_' => word_len(bytes) == bytes.len(),
        b'0'..=b'9' => digits_len(bytes) == bytes.len(),
        b'\'' => word_len(after) == after.len(),
        b'!' | b'-' | b'<' | b'>' => after.is_empty(),
        _ => false,
    }
}
