//! Checked programs in normal form, and the plans of their bodies: in which order a join meets the variables, and through
//! which index it goes through each atom.
//!
//! A route (`plans`) is what of a plan depends on a body's shape alone, the order of its variables and the columns of its atoms; `planned`
//! keeps a program with its statements' routes and plans, and is seen as the program. Its `Shapes` know where up to 16 shapes were met,
//! over batches, and forget them all then. `filling` puts constants into a checked statement and its plan: plans commute with a change of
//! constants (`plans_of_forms`). Read `specs/Shape` and `Filling`. The files follow the text: `places` (the columns of the atoms in text
//! order; where each variable begins), `order` (the stated order of those places), `levels` (a level for each, with pins and a tie),
//! `guides` (each atom's columns in the order of their levels), `holders` (for each level the atoms that hold it, made once a shape),
//! `planning` (`plan`), `indexes` (`needs`), `laws`.
#![tactic(auto)]

pub mod filling;
mod guides;
mod holders;
pub mod indexes;
pub mod laws;
mod levels;
mod order;
mod pins;
mod places;
mod plan_filling;
pub mod planned;
pub mod planning;
pub mod plans;
pub mod shape;

pub use filling::{filled, refill};
pub use indexes::{body_of, own_columns};
pub use lt_model::normal::{Atom, Body, Prog, Stmt, Term, TermList, Test};
pub use pins::Pins;
pub use planned::{Planned, Shapes, plan_all};
pub use planning::{plan, plan_by, route};
pub use plans::{Guide, Guides, IndexName, Level, Perms, Plan, Route};
pub use shape::same_shape;
