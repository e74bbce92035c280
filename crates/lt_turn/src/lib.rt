//! One value that threads pass from hand to hand, each in its turn.
//!
//! A turn is a word and a slot of the kit's `atomic_table`: the word is twice the number of the journal's entries, and one more while a
//! seat holds the turn. `story` is what the value has to tell (an opening and a journal), `turn/steps` the calls, `turn/waits` how threads
//! sleep, `plays` and `cut` the kinds of atomic steps. Read `specs/Journal`, then `specs/Rule`: `View` is what a seat knows, `Passed` is
//! what holds of the table.
#![tactic(auto)]

mod cut;
mod origin;
mod plays;
mod story;
mod turn;
mod view;

pub use origin::Origin;
pub use plays::Turns;
pub use story::Story;
pub use turn::{Seat, Turn};
pub use view::View;
