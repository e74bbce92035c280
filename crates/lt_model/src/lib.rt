//! The language: its plain data here, and in `specs/` what they mean. Its only code compares names and texts.
//!
//! Read `specs` in this order: `Tokens`, `Grammar` (what is a script), `Report` (what it answers), then what these name: `Check` (codes),
//! `Effect` and `Answers` (what a statement does), `Serial` (programs one after another). In `src`, `syntax` is a script as it is written
//! and `normal` a checked program; `form` keeps a statement whole, or as a form and constants; `theorems` are the laws: functions with an
//! empty body, whose contract is the law.
#![tactic(auto)]

pub mod form;
pub mod kind;
pub mod mark;
pub mod name;
pub mod normal;
pub mod reply;
pub mod syntax;
pub mod texts;
pub mod theorems;

pub use kind::{Kind, KindList};
pub use mark::{Mark, MarkList};
pub use name::{Headings, Name};
pub use reply::{Printed, Prints, Reply};
