//! The text that comes in to the console, as it is fed, and the words beside its codes.
//!
//! `inputs` gives the lines of standard input or of a file. Each input has a `script`: what was fed of it to a `Fed` (a feed that wasn't
//! ended), the text of the item that was begun, and where lines are passed over. `tokens` finds tokens, `statements` those of a batch, and
//! `places` where a fault stands and what may stand there, by reading fronts of the text. `commands` reads a line that begins with a
//! point. `words` has what the codes say, and `pieces` puts numbers and cells behind a text. Read `specs/Fed`.
#![tactic(auto)]

pub mod commands;
pub mod fed;
pub mod inputs;
pub mod pieces;
pub mod places;
pub mod script;
pub mod statements;
pub mod tokens;
pub mod words;
