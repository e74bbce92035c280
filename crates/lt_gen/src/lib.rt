//! The generated script of the bench, and the summary of its run.
//!
//! `draws` are the numbers of the generator, `statements`, `loading` and `buying` the programs that come of them, `groups` and `script`
//! the batches; `summary`, `sums` and `text` are what a run of it answers. Read `specs/Script`, then `Answered` and `Summaries`.
#![tactic(auto)]

mod buying;
mod draws;
mod groups;
mod loading;
mod script;
mod statements;
mod summary;
mod sums;
mod text;

pub use script::{ItemList, bench_script};
pub use statements::stock_query;
pub use summary::Summary;
pub use sums::column_sum;
pub use text::bench_summary;
