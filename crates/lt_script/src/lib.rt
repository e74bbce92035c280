//! Bytes read as tokens, and tokens as the items of the language. `Reader` gives them one at a time, and `Feed` those of a
//! script that comes in pieces; where a script is at fault, they give the first fault.
//!
//! The files follow the way of a byte: `runs`, `reserved` (which reserved word or sign a token is: the lexer tells it once, and the parser
//! compares one byte), `lexer`, `token`, `label` (tokens within their length), `cursor` (a place among the tokens, read one at a time, so
//! memory doesn't grow with the input), `one_token`, `terms`, `literals`, `statements`, `items` (the parser, which gives `lt_model`'s
//! items at once: each function equals a reader of `specs/Valued`, and `proofs/Bridges` shows that these give what the trees of
//! `lt_grammar` stand for), `range` and `cells` (numbers and symbols), `names` (the limit of 16 variables), `step` (one item for both
//! callers), `reader` (the items of a whole text) and `feed` (those of a script in pieces; `specs/Pieces` says which tokens are decided
//! where more bytes may come, `tail` is the test). `forms` keeps statements by their texts: `slots` finds where constants stand in a text,
//! by the lexer, `blanking` puts numbers in their place, `fitting` reads a text by a form, `outline` picks the forms that are tried. A
//! form only ever says yes: what doesn't fit is parsed, so each fault is found as ever. Read `specs/Forms`.
#![tactic(auto)]

mod among;
mod blanking;
mod cells;
mod cursor;
mod feed;
mod fitting;
mod forms;
mod items;
mod label;
mod lexer;
mod literals;
mod names;
mod one_token;
mod outline;
mod range;
mod reader;
mod refusal;
mod reserved;
mod runs;
mod slots;
mod spare;
mod standing;
mod statements;
mod step;
mod tail;
mod terms;
pub mod theorems;
mod token;

pub use feed::{Feed, FeedStep};
pub use lt_model::syntax::{
    Head, Item, Literal, LiteralList, Op, Program, ProgramList, Statement, StatementList, Term,
    TermList,
};
pub use reader::Reader;
pub use step::Step;
