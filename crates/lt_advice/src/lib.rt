//! What the console says of a program without a run: warnings, and how its statements are gone through.
//!
//! `advice` warns of what may not have been meant, by `deciding`, which says what a key decides, and `advising` tells it. `routes` reads
//! the plan that `lt_query` makes of a body, `narrowed` finds what comparisons narrow in it, and `explaining` tells both. What is said is
//! put into `lines`, which are counted before they are written; `cells` has the constants of a statement that is kept by a form.
#![tactic(auto)]

pub mod advice;
pub mod advising;
pub mod cells;
mod deciding;
pub mod explaining;
pub mod lines;
mod narrowed;
mod routes;
