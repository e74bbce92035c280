//! What the console writes beside the report: lines of errors, counts, texts; and how it answers.
//!
//! `telling` has the lines, `refusing` those that are told of an input: of its last line, or of a fault, whose item is given up. `text`
//! writes a text that was made before. `settings` is what the console goes by, and how it
//! has the world run batches.
#![tactic(auto)]

pub mod refusing;
pub mod settings;
pub mod telling;
pub mod text;
