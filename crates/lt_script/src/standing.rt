//! What stands at a place in a source.

/// What stands next, and its line.
#[derive(Clone, Copy)]
pub enum Standing {
    /// A token.
    Token { line: u64 },
    /// The end of the source.
    End { line: u64 },
    /// A fault inside a token, and its code.
    Broken { line: u64, code: u32 },
}
