//! Symbols and their cells.
ghost use Rattle.std.specs.Prelude.{◌≡◌, ◌≤◌, ◌-◌, ◌↔◌, IsTrue, IsSome, IfSome, ◌∷◌, ◌++◌, length, replicate};
ghost use Rattle.std.specs.List.{list_all};
ghost use Rattle.lt_face.specs.Rows.{IsCell};
ghost use Rattle.lt_model.specs.Cells.{sym_cell};
ghost use Rattle.lt_model.specs.Tokens.{in_word};
ghost use Rattle.lt_values.specs.Symbols.{is_symbol};

use lt_face::key::Key;
use lt_model::name::LONGEST;

/// The cell of a symbol: the number whose 15 digits to the base 256 are its bytes and then zeros. None exactly where
/// the text hasn't 1 to 15 bytes or has one other than `a`-`z`, `0`-`9` and `_`.
pub fn cell_of_sym(text: &[u8]) -> Option<Key>
    ensures symbol { IsSome result ↔ IsTrue (is_symbol text.now) }
    ensures value { IfSome result (λ cell. cell ≡ sym_cell text.now) }
    ensures cell { IfSome result IsCell }
{
    if !is_symbol(text) {
        return None;
    }
    Some(Key::from_be_bytes(digits(text)))
}

// A symbol's 15 digits behind a 0, which makes them the 16 bytes of a key.
fn digits(text: &[u8]) -> [u8; LONGEST + 1]
    requires { length text.now ≤ LONGEST }
    ensures { result ≡ 0 ∷ (text.now ++ replicate (LONGEST - length text.now) 0) }
{
    let mut digits = [0; LONGEST + 1];
    digits[1..=text.len()].copy_from_slice(text);
    digits
}

fn is_symbol(text: &[u8]) -> bool
    ensures { result ≡ is_symbol text.now }
{
    (1..=LONGEST).contains(&text.len()) && are_allowed(text)
}

fn are_allowed(text: &[u8]) -> bool
    ensures { result ≡ list_all in_word text.now }
{
    text.iter()
        .all(|&byte| matches!(byte, b'a'..=b'z' | b'0'..=b'9' | b'_'))
}
