//! Selection kernels for Arrow columns, under upstream's names: filter, gather, if-then-else and
//! horizontal flatten; and laws that relate them.
#![tactic(auto)]

pub mod laws;

pub use sel_kernels::{filter, gather, horizontal_flatten, propagate_dictionary, reverse, select};
pub use sel_ternary::if_then_else;
