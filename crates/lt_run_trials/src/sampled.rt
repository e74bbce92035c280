//! Statements at random, over the relation e of two columns, the variables x, y and z, and the constants 0 to 4.
ghost use Rattle.std.specs.Prelude.{◌<◌, length};

use lt_face::memory::NoMemory;
use rand_core::Rng;
use rand_pcg::Pcg32;
use std::alloc::Global;

const CONSTANTS: [&str; 5] = ["0", "1", "2", "3", "4"];

const VARIABLES: [&str; 3] = ["x", "y", "z"];

const TERMS: [&str; 11] = ["x", "y", "z", "x", "y", "z", "0", "1", "2", "3", "4"];

const SIGNS: [&str; 6] = ["=", "!=", "<", "<=", ">", ">="];

/// What stands before the body of a statement.
const HEADS: [&str; 7] = [
    "insert e(?, ?) where ",
    "delete e(?, ?) where ",
    "replace e(?, ?) by e(?, ?) where ",
    "require some ",
    "require none ",
    "print (?, ?) where ",
    "print (?, ?) where ",
];

/// Bodies with a comparison, a sum or a negated atom.
const BODIES: [&str; 10] = [
    "e(x, y), e(y, z), e(?, ?), # = ? + ?; ",
    "e(x, y), e(y, z), e(?, ?), # = ? - ?; ",
    "e(x, y), e(y, z), not e(?, ?); ",
    "e(x, y), not e(?, ?), e(y, z), not e(w, #), w = ? + ?; ",
    "e(x, y), e(y, z), w = # + $, ? ~ w, ? ~ ?; ",
    "e(x, y), e(y, z), # ~ 9223372036854775807, # >= -9223372036854775808, ? ~ ?; ",
    "e(x, y), e(y, z), # ~ ?, # ~ ?; ",
    "e(x, y), e(y, z), e(?, ?), ? ~ ?; ",
    "e(x, y), e(y, z), e(?, ?), ? ~ ?; ",
    "e(x, y), e(y, z), e(?, ?), ? ~ ?; ",
];

/// One of these at random.
fn one_of(random: &mut Pcg32, texts: &[&'static str]) -> &'static str
    requires { 0 < length texts.now }
{
    texts[random.next_u32() as usize % texts.len()]
}

/// What a sign of a template stands for: a term for `?`, a variable for `#`, a constant for `$`, a comparison for `~`. Another
/// stands for itself.
fn drawn(random: &mut Pcg32, sign: char) -> Option<&'static str> {
    match sign {
        '?' => Some(one_of(random, &TERMS)),
        '#' => Some(one_of(random, &VARIABLES)),
        '$' => Some(one_of(random, &CONSTANTS)),
        '~' => Some(one_of(random, &SIGNS)),
        _ => None,
    }
}

/// Appends what a template stands for.
fn put(text: &mut String, random: &mut Pcg32, template: &str) -> Result<(), NoMemory> {
    for sign in template.chars() {
        match drawn(random, sign) {
            Some(word) => text.push_str(word)?,
            None => text.push(sign)?,
        }
    }
    Ok(())
}

/// The statements that insert ten rows.
pub(crate) fn stock(alloc: Global, random: &mut Pcg32) -> Result<String, NoMemory> {
    let mut text = String::new(alloc);
    for _ in 0..10 {
        put(&mut text, random, "insert e($, $); ")?;
    }
    Ok(text)
}

/// Appends a statement with one of these heads and a body.
fn put_one(text: &mut String, random: &mut Pcg32, heads: &[&'static str]) -> Result<(), NoMemory>
    requires { 0 < length heads.now }
{
    let head = one_of(random, heads);
    let body = one_of(random, &BODIES);
    put(text, random, head)?;
    put(text, random, body)
}

/// A statement that writes nothing.
pub(crate) fn asking(alloc: Global, random: &mut Pcg32) -> Result<String, NoMemory> {
    let mut text = String::new(alloc);
    put_one(&mut text, random, &HEADS[3..6])?;
    Ok(text)
}

/// The statements of a program that inserts ten rows, and then joins them.
pub(crate) fn text(alloc: Global, random: &mut Pcg32) -> Result<String, NoMemory> {
    let mut text = stock(alloc, random)?;
    for _ in 0..6 {
        put_one(&mut text, random, &HEADS)?;
    }
    Ok(text)
}
