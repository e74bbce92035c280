//! Reserved words and signs.
ghost use Rattle.std.specs.Prelude.{◌≡◌, ◌≤◌, IfSome, Some, cond, length};
ghost use Rattle.std.specs.Str.{bytes_eq};
ghost use Rattle.lt_model.specs.Tokens.{sign_at};
ghost use Rattle.lt_script.specs.Reserved.{reserved_of, first_sign};

use lt_model::texts::are_same;

/// A word that is no name.
#[derive(Clone, Copy, PartialEq, Eq)]
pub enum Reserved {
    Relation,
    Batch,
    Program,
    End,
    Commit,
    Show,
    At,
    Insert,
    Delete,
    Replace,
    By,
    Where,
    Require,
    Some,
    None,
    Print,
    Int,
    Sym,
    Not,
}

/// A sign.
#[derive(Clone, Copy, PartialEq, Eq)]
pub enum Sign {
    NotEqual,
    LessOrEqual,
    GreaterOrEqual,
    Arrow,
    Open,
    Close,
    Comma,
    Semicolon,
    Equal,
    Less,
    Greater,
    Plus,
    Minus,
}

// The word that has this text, or the other one.
#[inline(always)]
fn word_or(text: &[u8], of_word: &[u8], word: Reserved, other: Option<Reserved>) -> Option<Reserved>
    ensures { result ≡ cond (bytes_eq text.now of_word.now) (Some word) other }
{
    if are_same(text, of_word) {
        return Some(word);
    }
    other
}

/// The reserved word that a text is. Only those that begin as it does are looked at.
pub fn find_reserved(text: &[u8]) -> Option<Reserved>
    ensures { result ≡ reserved_of text.now }
{
    let Some((first, _)) = text.split_first() else {
        return None;
    };
    match *first {
        b'a' => word_or(text, b"at", Reserved::At, None),
        b'b' => {
            let by = word_or(text, b"by", Reserved::By, None);
            word_or(text, b"batch", Reserved::Batch, by)
        }
        b'c' => word_or(text, b"commit", Reserved::Commit, None),
        b'd' => word_or(text, b"delete", Reserved::Delete, None),
        b'e' => word_or(text, b"end", Reserved::End, None),
        b'i' => {
            let int = word_or(text, b"int", Reserved::Int, None);
            word_or(text, b"insert", Reserved::Insert, int)
        }
        b'n' => {
            let not = word_or(text, b"not", Reserved::Not, None);
            word_or(text, b"none", Reserved::None, not)
        }
        b'p' => {
            let print = word_or(text, b"print", Reserved::Print, None);
            word_or(text, b"program", Reserved::Program, print)
        }
        b'r' => {
            let require = word_or(text, b"require", Reserved::Require, None);
            let replace = word_or(text, b"replace", Reserved::Replace, require);
            word_or(text, b"relation", Reserved::Relation, replace)
        }
        b's' => {
            let sym = word_or(text, b"sym", Reserved::Sym, None);
            let some = word_or(text, b"some", Reserved::Some, sym);
            word_or(text, b"show", Reserved::Show, some)
        }
        b'w' => word_or(text, b"where", Reserved::Where, None),
        _ => None,
    }
}

/// The sign at the front, and how many bytes it has, where one stands there.
#[inline(always)]
pub fn find_sign(bytes: &[u8]) -> Option<(Sign, usize)>
    ensures sign { sign_at bytes.now ≡ first_sign result bytes.now }
    ensures within { IfSome result (λ found. found.1 ≤ length bytes.now) }
{
    match bytes {
        [b'!', b'=', ..] => Some((Sign::NotEqual, 2)),
        [b'<', b'=', ..] => Some((Sign::LessOrEqual, 2)),
        [b'>', b'=', ..] => Some((Sign::GreaterOrEqual, 2)),
        [b'-', b'>', ..] => Some((Sign::Arrow, 2)),
        [b'(', ..] => Some((Sign::Open, 1)),
        [b')', ..] => Some((Sign::Close, 1)),
        [b',', ..] => Some((Sign::Comma, 1)),
        [b';', ..] => Some((Sign::Semicolon, 1)),
        [b'=', ..] => Some((Sign::Equal, 1)),
        [b'<', ..] => Some((Sign::Less, 1)),
        [b'>', ..] => Some((Sign::Greater, 1)),
        [b'+', ..] => Some((Sign::Plus, 1)),
        [b'-', ..] => Some((Sign::Minus, 1)),
        _ => None,
    }
}
