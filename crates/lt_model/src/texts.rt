//! Texts that are compared.
ghost use Rattle.std.specs.Prelude.{◌≡◌};
ghost use Rattle.std.specs.Str.{bytes_eq};

#[inline(always)]
fn is_equal(text: &[u8], other: &[u8]) -> bool
    ensures { result ≡ bytes_eq text.now other.now }
{
    if text.len() != other.len() {
        return false;
    }
    text == other
}

/// Whether two texts are the same. Signs and many names are one byte, and most others differ in length.
#[inline(always)]
pub fn are_same(text: &[u8], other: &[u8]) -> bool
    ensures { result ≡ bytes_eq text.now other.now }
{
    match (text, other) {
        ([byte], [of_other]) => *byte == *of_other,
        _ => is_equal(text, other),
    }
}
