//! A text among others.
ghost use Rattle.std.specs.Prelude.{◌≡◌};
ghost use Rattle.std.specs.List.{list_any};
ghost use Rattle.std.specs.Str.{bytes_eq};
ghost use Rattle.lt_script.specs.Parsed.{texts};

use lt_model::texts::are_same;

/// Whether the text is among these.
#[inline(always)]
pub fn contains(names: &[&[u8]], text: &[u8]) -> bool
    ensures { result ≡ list_any (bytes_eq text.now) (texts names.now) }
{
    for name in names {
        if are_same(text, *name) {
            return true;
        }
    }
    false
}
