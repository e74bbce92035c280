//! The rows of an answer: in ascending order, each once.
//!
//! However a body is gone through, its rows are put in order and what stands twice goes by the one function `ascending`: for the triejoin
//! (`lt_join`) and for nested loops (`lt_reference`). `proofs/SortedRows` says that a sort without repeats is the answer's order,
//! `proofs/AscendingRows` when rows are in order already.
#![tactic(auto)]

pub mod ascending;
