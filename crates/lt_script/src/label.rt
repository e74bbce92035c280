//! Texts that are short and not empty.
ghost use Rattle.std.specs.Prelude.{◌≡◌, ◌≤◌, IsTrue, false, length};
ghost use Rattle.std.specs.List.{list_all};
ghost use Rattle.lt_model.specs.Tokens.{in_word};
ghost use Rattle.lt_grammar.specs.Tokens.{is_reserved};

use lt_model::name::Name;
use std::alloc::Global;

/// 1 to 15 bytes of the source, each of `a`-`z`, `0`-`9` and `_`: the text of a word, or of a symbol between its quotes.
#[derive(Clone, Copy)]
pub struct Label<'a> {
    pub bytes: &'a [u8],
    pub ghost some: { 1 ≤ length bytes.now },
    pub ghost few: { length bytes.now ≤ 15 },
    pub ghost plain: { IsTrue (list_all in_word bytes.now) },
}

impl<'a> Label<'a> {
    /// The text as a name.
    pub fn to_name(&self, alloc: Global) -> Name
        ensures { result ≡ self.now.bytes.now }
    {
        Name::from_bytes(alloc, self.bytes)
    }
}

/// The text of a word that isn't reserved.
#[derive(Clone, Copy)]
pub struct Unreserved<'a> {
    pub label: Label<'a>,
    pub ghost free: { is_reserved label.bytes.now ≡ false },
}
