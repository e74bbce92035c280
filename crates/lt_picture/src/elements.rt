//! Elements of a picture.
use std::alloc::AllocError;

/// A rectangle by its left upper corner and its size.
#[derive(Clone, Copy)]
pub struct Area {
    pub left: u64,
    pub top: u64,
    pub width: u64,
    pub height: u64,
}

/// Writes a rectangle.
pub fn put_area(text: &mut String, class: &str, area: Area) -> Result<(), AllocError> {
    let Area {
        left,
        top,
        width,
        height,
    } = area;
    write!(text, "<rect class='{class}' x='{left}' y='{top}'")?;
    write!(text, " width='{width}' height='{height}'/>")
}

/// Writes words, whose line stands at `y`. How they stand about `x` is the class's.
pub fn put_words(
    text: &mut String,
    class: &str,
    x: u64,
    y: u64,
    words: &str,
) -> Result<(), AllocError> {
    write!(text, "<text class='{class}' x='{x}' y='{y}'>")?;
    write!(text, "{words}</text>")
}

/// Writes a number, whose line stands at `y`. How it stands about `x` is the class's.
pub fn put_number(
    text: &mut String,
    class: &str,
    x: u64,
    y: u64,
    number: u64,
) -> Result<(), AllocError> {
    write!(text, "<text class='{class}' x='{x}' y='{y}'>")?;
    write!(text, "{number}</text>")
}
