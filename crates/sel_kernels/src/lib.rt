//! Kernels that select rows of Arrow columns: filter, gather, list elements, horizontal flatten,
//! dictionaries.
#![tactic(auto)]

pub mod filter;
pub mod gather;
pub mod horizontal_flatten;
mod lanes;
pub mod propagate_dictionary;
pub mod reverse;
mod runs;
pub mod select;
mod woven;
